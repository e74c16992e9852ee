//! Marks the places of the nodes of a text that has a tree.

ghost use Rattle.std.specs.Prelude.{◌≡◌, ◌<◌, IfSome, vec_len};

use crate::places::Place;
use crate::places::marks::{Beginning, Marks};
use expr_functions::HigherOrderCall;
use expr_parts::frame::OperandStart;
use expr_parts::read::operand_start;
use expr_tokens::operator_sign::InfixSign;
use expr_tokens::role::Role;
use expr_tokens::{NextToken, Reserved, Sign, Token, next_token};
use std::alloc::{AllocError, Global};

/// What is open.
#[derive(Clone, Copy)]
enum Kind {
    /// An operator that waits for its last part, which includes operators of at least this level.
    Reaching(u8),
    /// Brackets.
    Group,
    /// Between `?` and `:`.
    Middle,
    /// An array, or the arguments of a method.
    List,
    /// The arguments of a call.
    Call(Option<HigherOrderCall>),
    /// A pipe, right below its call.
    Pipe,
    /// An index or a slice.
    Index,
    /// An `if`.
    Choice,
    /// An `if` after an `else`, right above the `if` before it.
    ElseChoice,
    /// The first program of an `if`.
    Then,
    /// The last program of an `if`.
    Last,
    /// A predicate in braces.
    Predicate,
    /// The value of a line.
    Value,
    Map,
}

#[derive(Clone, Copy)]
struct Open {
    kind: Kind,
    begun: Beginning,
}

/// What was read last.
#[derive(Drop)]
enum Seen {
    Want,
    Have,
    Name(Place, Option<HigherOrderCall>),
    Member(Place),
    Dotted,
    Questioned,
    Negated,
    Barred,
    Piped(Place, Option<HigherOrderCall>),
    Chosen,
    Alternate,
    NamesLine,
    Named,
    Argued,
    NamesField(Place),
    Braced(Beginning),
    BracedKey(Beginning, Place, OperandStart),
    Keys,
    Colons,
}

#[derive(Drop)]
struct Placer {
    marks: Marks,
    opened: Vec<Open>,
    /// The beginning of the operand that was read last, with its brackets.
    operand: Beginning,
    /// The end of the token before.
    last: usize,
}

/// The marks of a text.
pub(crate) fn marks_of(alloc: Global, text: &str) -> Result<Marks, AllocError> {
    let mut placer = Placer::new(alloc);
    let mut seen = Seen::Want;
    let mut at = 0;
    while let NextToken::Token(token, start, end) = next_token(alloc, text, at)? {
        seen = placer.step(seen, token, Place { start, end })?;
        placer.last = end;
        at = end;
    }
    placer.finish(seen)?;
    placer.settle(0)?;
    Ok(placer.marks)
}

fn call_of(token: &Token) -> Option<HigherOrderCall> {
    match token {
        Token::Word(name) => HigherOrderCall::from_name(name.as_str()),
        _ => None,
    }
}

impl Placer {
    fn new(alloc: Global) -> Placer {
        Placer {
            marks: Marks::new(alloc),
            opened: Vec::new(alloc),
            operand: Beginning { start: 0, first: 0 },
            last: 0,
        }
    }

    fn step(&mut self, seen: Seen, token: Token, place: Place) -> Result<Seen, AllocError> {
        match seen {
            Seen::Braced(begun) => self.after_brace(begun, token, place),
            Seen::BracedKey(begun, key, start) => self.after_key(begun, key, start, token, place),
            seen => self.step_on(seen, token, place),
        }
    }

    fn step_on(&mut self, seen: Seen, token: Token, place: Place) -> Result<Seen, AllocError> {
        match seen {
            Seen::Want => self.begin(operand_start(token), place),
            seen => self.go_on(seen, &token, place),
        }
    }

    fn go_on(&mut self, seen: Seen, token: &Token, place: Place) -> Result<Seen, AllocError> {
        match seen {
            Seen::Have | Seen::Name(..) | Seen::Member(_) => self.follow(seen, token, place),
            Seen::Dotted => Ok(Seen::Member(place)),
            Seen::Questioned => self.optional(token, place),
            Seen::Negated => self.enter(Kind::Reaching(InfixSign::NotIn.reach()), self.operand),
            Seen::Barred => Ok(Seen::Piped(place, call_of(token))),
            Seen::Piped(name, call) => {
                let begun = self.marks.beginning(name.start);
                self.enter(Kind::Pipe, self.operand)?;
                self.enter(Kind::Call(call), begun)
            }
            Seen::Chosen => Ok(Seen::Alternate),
            Seen::Alternate => self.alternative(token, place),
            Seen::NamesLine => Ok(Seen::Named),
            Seen::Named => {
                let begun = self.marks.beginning(place.start);
                self.enter(Kind::Value, begun)
            }
            Seen::Argued => self.close(token, place),
            Seen::NamesField(dot) => {
                let begun = self.marks.leaf(dot, true)?;
                self.marks.leaf(place, false)?;
                self.complete(begun, place.end)
            }
            Seen::Keys => match token {
                Token::Sign(Sign::BraceClose) => self.close(token, place),
                _ => Ok(Seen::Colons),
            },
            Seen::Colons => Ok(Seen::Want),
            Seen::Want | Seen::Braced(_) | Seen::BracedKey(..) => Ok(Seen::Want),
        }
    }

    fn begin(&mut self, start: OperandStart, place: Place) -> Result<Seen, AllocError> {
        let begun = self.marks.beginning(place.start);
        match start {
            OperandStart::Literal(_) => self.leaf(place, false),
            OperandStart::Name(name) => {
                Ok(Seen::Name(place, HigherOrderCall::from_name(name.as_str())))
            }
            OperandStart::HashName(_) => self.leaf(place, true),
            OperandStart::Sign(sign) => self.enter(Kind::Reaching(sign.level()), begun),
            OperandStart::Group => self.enter(Kind::Group, begun),
            OperandStart::List => self.enter(Kind::List, begun),
            OperandStart::Brace => self.brace(begun),
            OperandStart::Field => Ok(Seen::NamesField(place)),
            OperandStart::Choice => self.enter(Kind::Choice, begun),
            OperandStart::Line => Ok(Seen::NamesLine),
            OperandStart::Other(token) => self.close(&token, place),
        }
    }

    fn leaf(&mut self, place: Place, is_free: bool) -> Result<Seen, AllocError> {
        self.operand = self.marks.leaf(place, is_free)?;
        Ok(Seen::Have)
    }

    fn enter(&mut self, kind: Kind, begun: Beginning) -> Result<Seen, AllocError> {
        self.opened.push(Open { kind, begun })?;
        Ok(Seen::Want)
    }

    fn complete(&mut self, begun: Beginning, end: usize) -> Result<Seen, AllocError>
        ensures { self.new.opened ≡ self.old.opened }
    {
        self.marks.node(begun, end)?;
        self.operand = begun;
        Ok(Seen::Have)
    }

    fn brace(&mut self, begun: Beginning) -> Result<Seen, AllocError> {
        match self.opened.last() {
            Some(
                Open {
                    kind: Kind::Call(_),
                    begun: _,
                },
            ) => Ok(Seen::Braced(begun)),
            _ => {
                self.enter(Kind::Map, begun)?;
                Ok(Seen::Keys)
            }
        }
    }

    fn after_brace(
        &mut self,
        begun: Beginning,
        token: Token,
        place: Place,
    ) -> Result<Seen, AllocError> {
        match token {
            Token::Word(_) | Token::Reserved(_) | Token::Quoted(_) => {
                Ok(Seen::BracedKey(begun, place, operand_start(token)))
            }
            Token::Sign(Sign::BraceClose) => self.complete(begun, place.end),
            token => {
                self.enter(Kind::Predicate, begun)?;
                self.begin(operand_start(token), place)
            }
        }
    }

    fn after_key(
        &mut self,
        begun: Beginning,
        key: Place,
        start: OperandStart,
        token: Token,
        place: Place,
    ) -> Result<Seen, AllocError> {
        if let Token::Sign(Sign::Colon) = &token {
            return self.enter(Kind::Map, begun);
        }
        self.enter(Kind::Predicate, begun)?;
        let seen = self.begin(start, key)?;
        self.last = key.end;
        self.step_on(seen, token, place)
    }

    fn optional(&mut self, token: &Token, place: Place) -> Result<Seen, AllocError> {
        if let Token::Sign(Sign::SquareOpen) = token {
            return self.enter(Kind::Index, self.operand);
        }
        self.marks.leaf(place, false)?;
        self.complete(self.operand, place.end)
    }

    fn alternative(&mut self, token: &Token, place: Place) -> Result<Seen, AllocError> {
        let begun = self.marks.beginning(place.start);
        match token {
            Token::Reserved(Reserved::If) => self.enter(Kind::ElseChoice, begun),
            _ => self.enter(Kind::Last, begun),
        }
    }

    /// Makes the node of an operand that no arguments follow.
    fn finish(&mut self, seen: Seen) -> Result<(), AllocError> {
        match seen {
            Seen::Name(place, _) => {
                self.operand = self.marks.leaf(place, false)?;
            }
            Seen::Member(place) => {
                self.marks.leaf(place, false)?;
                self.marks.node(self.operand, place.end)?;
            }
            _ => {}
        }
        Ok(())
    }

    fn settle(&mut self, level: u8) -> Result<(), AllocError> {
        while let Some(begun) = self.pop_above(level) {
            self.complete(begun, self.last)?;
        }
        Ok(())
    }

    fn pop_above(&mut self, level: u8) -> Option<Beginning>
        ensures { IfSome result (λ _. vec_len self.new.opened < vec_len self.old.opened) }
    {
        match self.opened.last() {
            Some(
                Open {
                    kind: Kind::Reaching(reach),
                    begun: _,
                },
            ) if level < *reach => Some(self.opened.pop()?.begun),
            _ => None,
        }
    }

    fn follow(&mut self, seen: Seen, token: &Token, place: Place) -> Result<Seen, AllocError> {
        let role = Role::from_token(token);
        if role == Role::Applying {
            return self.apply(seen);
        }
        self.finish(seen)?;
        self.settle(role.level())?;
        match role {
            Role::Applying => Ok(Seen::Want),
            Role::Binary(sign) => self.enter(Kind::Reaching(sign.reach()), self.operand),
            Role::Negating => Ok(Seen::Negated),
            Role::Branching => self.enter(Kind::Middle, self.operand),
            Role::Piping => Ok(Seen::Barred),
            Role::Dotting => Ok(Seen::Dotted),
            Role::Questioning => Ok(Seen::Questioned),
            Role::Picking => self.enter(Kind::Index, self.operand),
            Role::NoOperator => self.close(token, place),
        }
    }

    fn apply(&mut self, seen: Seen) -> Result<Seen, AllocError> {
        match seen {
            Seen::Name(name, call) => {
                let begun = self.marks.beginning(name.start);
                self.enter(Kind::Call(call), begun)
            }
            _ => self.enter(Kind::List, self.operand),
        }
    }

    /// A token that ends a part of what is open.
    fn close(&mut self, token: &Token, place: Place) -> Result<Seen, AllocError> {
        match token {
            Token::Sign(Sign::Comma) => match self.opened.last() {
                Some(
                    Open {
                        kind: Kind::Map,
                        begun: _,
                    },
                ) => Ok(Seen::Keys),
                _ => Ok(Seen::Want),
            },
            Token::Sign(Sign::Colon) => self.colon(),
            Token::Sign(Sign::BraceOpen) => {
                let begun = self.marks.beginning(place.start);
                self.enter(Kind::Then, begun)
            }
            _ => match self.opened.pop() {
                None => Ok(Seen::Want),
                Some(ended) => self.end(ended, place),
            },
        }
    }

    fn colon(&mut self) -> Result<Seen, AllocError> {
        if let Some(
            Open {
                kind: Kind::Middle,
                begun,
            },
        ) = self.opened.last()
        {
            let begun = *begun;
            self.opened.pop();
            return self.enter(Kind::Reaching(1), begun);
        }
        Ok(Seen::Want)
    }

    fn end(&mut self, ended: Open, place: Place) -> Result<Seen, AllocError> {
        let begun = ended.begun;
        match ended.kind {
            Kind::Group => {
                self.operand = begun;
                Ok(Seen::Have)
            }
            Kind::List | Kind::Index | Kind::Map => self.complete(begun, place.end),
            Kind::Call(call) => {
                self.marks.call(begun, place.end, call)?;
                self.operand = begun;
                self.end_pipe(place)
            }
            Kind::Then => Ok(Seen::Chosen),
            Kind::Last => self.end_choices(place),
            Kind::Predicate => {
                self.marks.braces(begun, place.end)?;
                Ok(Seen::Argued)
            }
            Kind::Reaching(_) | Kind::Middle | Kind::Pipe => Ok(Seen::Want),
            Kind::Choice | Kind::ElseChoice | Kind::Value => Ok(Seen::Want),
        }
    }

    fn end_pipe(&mut self, place: Place) -> Result<Seen, AllocError> {
        if let Some(
            Open {
                kind: Kind::Pipe,
                begun,
            },
        ) = self.opened.last()
        {
            let begun = *begun;
            self.opened.pop();
            return self.complete(begun, place.end);
        }
        Ok(Seen::Have)
    }

    /// The end of an `if`, and of those before it whose `else` it is.
    fn end_choices(&mut self, place: Place) -> Result<Seen, AllocError> {
        while let Some(ended) = self.opened.pop() {
            self.complete(ended.begun, place.end)?;
            if let Kind::Choice = ended.kind {
                break;
            }
        }
        Ok(Seen::Have)
    }
}

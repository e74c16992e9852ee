//! The macros: `value!` writes a value as a literal, and `bail!` returns an error.

/// Makes a value from a literal like JSON, as a [`Result`]. The allocator comes first, as in `format!`. Write
/// `nil` for `null`. A list may end with a comma.
///
/// An item, or a value of a map, may be an expression if its type has [`crate::assembly::IntoValue`]. A key
/// may be an expression if it is a string with [`crate::assembly::IntoName`]. Put a key of more than one
/// token in brackets, or end it with its colon.
///
/// ```
/// let value = value!(in alloc; {
///     "code": code,
///     "payload": { "features": ["expr", "macro"], "homepage": nil },
/// })?;
/// ```
#[macro_export]
macro_rules! value {
    // Items of an array: each is added to the list.
    (@array $alloc:ident $list:expr;) => {
        $list
    };
    (@array $alloc:ident $list:expr; nil $(, $($rest:tt)*)?) => {
        $crate::value!(@array $alloc $crate::assembly::push_item($list, $crate::value!(in $alloc; nil)); $($($rest)*)?)
    };
    (@array $alloc:ident $list:expr; [$($inner:tt)*] $(, $($rest:tt)*)?) => {
        $crate::value!(@array $alloc $crate::assembly::push_item($list, $crate::value!(in $alloc; [$($inner)*])); $($($rest)*)?)
    };
    (@array $alloc:ident $list:expr; {$($inner:tt)*} $(, $($rest:tt)*)?) => {
        $crate::value!(@array $alloc $crate::assembly::push_item($list, $crate::value!(in $alloc; {$($inner)*})); $($($rest)*)?)
    };
    (@array $alloc:ident $list:expr; $next:expr $(, $($rest:tt)*)?) => {
        $crate::value!(@array $alloc $crate::assembly::push_item($list, $crate::value!(in $alloc; $next)); $($($rest)*)?)
    };
    (@array $alloc:ident $list:expr; $unexpected:tt $($rest:tt)*) => {
        $crate::value_unexpected!($unexpected)
    };

    // Pairs of a map: the tokens of the key so far are in brackets.
    (@map $alloc:ident $map:expr; ()) => {
        $map
    };
    (@map $alloc:ident $map:expr; ($($key:tt)+) : nil $(, $($rest:tt)*)?) => {
        $crate::value!(@map $alloc $crate::assembly::put_pair($map, $crate::assembly::IntoName::into_name($($key)+, $alloc), $crate::value!(in $alloc; nil)); () $($($rest)*)?)
    };
    (@map $alloc:ident $map:expr; ($($key:tt)+) : [$($inner:tt)*] $(, $($rest:tt)*)?) => {
        $crate::value!(@map $alloc $crate::assembly::put_pair($map, $crate::assembly::IntoName::into_name($($key)+, $alloc), $crate::value!(in $alloc; [$($inner)*])); () $($($rest)*)?)
    };
    (@map $alloc:ident $map:expr; ($($key:tt)+) : {$($inner:tt)*} $(, $($rest:tt)*)?) => {
        $crate::value!(@map $alloc $crate::assembly::put_pair($map, $crate::assembly::IntoName::into_name($($key)+, $alloc), $crate::value!(in $alloc; {$($inner)*})); () $($($rest)*)?)
    };
    (@map $alloc:ident $map:expr; ($($key:tt)+) : $value:expr $(, $($rest:tt)*)?) => {
        $crate::value!(@map $alloc $crate::assembly::put_pair($map, $crate::assembly::IntoName::into_name($($key)+, $alloc), $crate::value!(in $alloc; $value)); () $($($rest)*)?)
    };
    (@map $alloc:ident $map:expr; () : $($rest:tt)*) => {
        $crate::value_unexpected!(:)
    };
    (@map $alloc:ident $map:expr; ($($key:tt)*) , $($rest:tt)*) => {
        $crate::value_unexpected!(,)
    };
    (@map $alloc:ident $map:expr; ($($key:tt)+) : $($unexpected:tt)+) => {
        $crate::value_expect_expr_comma!($($unexpected)+)
    };
    (@map $alloc:ident $map:expr; ($($key:tt)*) $next:tt $($rest:tt)*) => {
        $crate::value!(@map $alloc $map; ($($key)* $next) $($rest)*)
    };

    (in $alloc:expr; nil) => {
        $crate::assembly::nil()
    };
    (in $alloc:expr; [$($items:tt)*]) => {{
        let alloc = $alloc;
        $crate::assembly::array($crate::value!(@array alloc $crate::assembly::no_items(alloc); $($items)*))
    }};
    (in $alloc:expr; {$($pairs:tt)*}) => {{
        let alloc = $alloc;
        $crate::assembly::map($crate::value!(@map alloc $crate::assembly::no_pairs(alloc); () $($pairs)*))
    }};
    (in $alloc:expr; $other:expr) => {
        $crate::assembly::IntoValue::into_value($other, $alloc)
    };
}

/// Takes no arguments, so that the compiler names a wrong token of [`value!`].
#[macro_export]
#[doc(hidden)]
macro_rules! value_unexpected {
    () => {};
}

/// Takes an expression and a comma, so that the compiler names a value of [`value!`] that has no comma after
/// it.
#[macro_export]
#[doc(hidden)]
macro_rules! value_expect_expr_comma {
    ($e:expr , $($tt:tt)*) => {};
}

/// Returns from the enclosing function with an [`Error::ExprError`] of this message. If the message can't be
/// allocated, the error is [`Error::MemoryError`]. The allocator comes first, as in
/// `bail!(in alloc; "no field {name}")`.
#[macro_export]
macro_rules! bail {
    (in $alloc:expr; $($message:tt)+) => {
        return $crate::Result::Err(match format!(in $alloc; $($message)+) {
            Ok(message) => $crate::Error::ExprError(message),
            Err(_) => $crate::Error::MemoryError,
        })
    };
}

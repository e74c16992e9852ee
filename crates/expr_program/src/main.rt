//! The program `expr`: evaluates its first argument, with the names that the other arguments bind.
#![tactic(auto)]

pub mod serve;

use std::alloc::AllocError;
use std::io::BufWriter;
use std::process::ExitCode;
use std::{env, io};

fn main(rt: HostRuntime) -> ExitCode {
    let mut err = rt.stderr();
    let words: Result<Vec<String>, AllocError> = match env::args(&rt) {
        Ok(args) => args.skip(1).collect(rt.alloc()),
        Err(error) if error.kind() == io::ErrorKind::InvalidData => {
            return ExitCode::from(serve::refuse_usage(&mut err));
        }
        Err(_) => Err(AllocError),
    };
    let Ok(words) = words else {
        return ExitCode::from(1);
    };
    let Ok(mut out) = BufWriter::new(rt.alloc(), rt.stdout()) else {
        return ExitCode::from(1);
    };
    ExitCode::from(serve::serve(rt.alloc(), words.as_slice(), &mut out, &mut err))
}

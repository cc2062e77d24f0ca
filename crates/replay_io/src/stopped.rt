// Why a replay stops before the listing's end: reading or writing failed.

use std::error::Error;
use std::{fmt, io};

#[derive(Debug, Drop)]
pub enum Stopped {
    Reading(io::Error),
    Writing(io::Error),
}

impl fmt::Display for Stopped {
    fn fmt<W: fmt::Write>(&self, f: &mut fmt::Formatter<W>) -> fmt::Result {
        match self {
            Stopped::Reading(error) => write!(f, "standard input: {error}"),
            Stopped::Writing(error) => write!(f, "standard output: {error}"),
        }
    }
}

impl Error for Stopped {}

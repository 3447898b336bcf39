//! The words of the command line.

use gp_app::Status;
use gp_base::Word;
use std::env;
use std::io::ErrorKind;
use std::rt::Env;

/// The words behind the program's name. A word that isn't UTF-8 is a faulty command line.
pub fn read_words<R: Env + AllocGlobal>(rt: &R) -> Result<Vec<Word>, Status> {
    let arguments = match env::args(rt) {
        Ok(arguments) => arguments,
        Err(error) => {
            return Err(match error.kind() {
                ErrorKind::OutOfMemory => Status::NoMemory,
                _ => Status::Usage,
            });
        }
    };
    let mut words = Vec::new(rt.alloc());
    for argument in arguments.skip(1) {
        let Ok(word) = Word::of(rt.alloc(), argument.as_str()) else {
            return Err(Status::NoMemory);
        };
        if words.push(word).is_err() {
            return Err(Status::NoMemory);
        }
    }
    Ok(words)
}

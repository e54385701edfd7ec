//! The values of options, tested as in `timing_words`.

use std::alloc::{AllocError as OutOfMemory, Global};
use timing_words::{
    WordFault, check_workers, count, delay, every, file_name, kind_named, media, model_named, tai,
};

/// Returns whether this can be a file name. Returns `Err` if memory runs out.
pub(crate) fn is_name(alloc: Global, text: &str) -> Result<bool, OutOfMemory> {
    match file_name(alloc, text) {
        Ok(_) => Ok(true),
        Err(WordFault::Usage) => Ok(false),
        Err(WordFault::OutOfMemory) => Err(OutOfMemory),
    }
}

/// Returns whether the value of the option of this name is valid. Returns `Err` if memory runs out.
pub(crate) fn is_valid(alloc: Global, name: &str, value: &str) -> Result<bool, OutOfMemory> {
    match name {
        "sdp" | "report" => is_name(alloc, value),
        "workers" => Ok(check_workers(Some(value), false).is_ok()),
        "tai" => Ok(tai(Some(value)).is_ok()),
        "delay" => Ok(delay(Some(value)).is_ok()),
        "media" | "pair" => Ok(media(value).is_ok()),
        "every" => Ok(every(Some(value)).is_ok()),
        "type" => Ok(kind_named(value).is_ok()),
        "model" => Ok(model_named(value).is_ok()),
        _ => Ok(count(value).is_ok()),
    }
}

/// Returns the valid values of the option of this name, in words.
pub(crate) fn range(name: &str) -> &'static str {
    match name {
        "sdp" => "the name of a session description",
        "report" => "the name of a report of check --json",
        "workers" => "1 to 16",
        "tai" => "0 to 1000",
        "delay" => "0 to 999999999",
        "media" | "pair" => "1 to 64",
        "every" => "1 to 1000000",
        "type" => "N, NL or W",
        "model" => "Bucket, Over or Empty",
        _ => "0 to 18446744073709551615",
    }
}

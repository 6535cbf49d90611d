//! Rows of runs over real folders, of which each prints what stands in a file beside its script.

use crate::says::{put, say, text_of};
use crate::setting::CALM;
use crate::tool::{Ended, end_of};
use dir_bucket::HostSite;
use phase_runner::Open;
use std::fs;
use std::sync::Wait;
use std::thread::Threads;

/// Prints the status of the run of a script in a folder, and what it wrote unless that is what stands beside the script.
pub(crate) fn print_beside<R: Threads + Wait + Sync>(
    threads: &R,
    rt: &HostRuntime,
    words: (&str, &str),
    folder: &str,
    name: &str,
) {
    let output = file_of(rt, folder, name, ".output");
    let script = file_of(rt, folder, name, ".script");
    print_over_files(threads, rt, words, script, Some(output.as_slice()));
}

/// The bytes of a file, or none.
pub(crate) fn file_of(rt: &HostRuntime, folder: &str, name: &str, ending: &str) -> Vec<u8> {
    let Ok(path) = format!(in rt.alloc(); "{folder}/{name}{ending}") else {
        return Vec::new(rt.alloc());
    };
    match fs::read(rt, path.as_str()) {
        Ok(bytes) => bytes,
        Err(_) => Vec::new(rt.alloc()),
    }
}

/// Does a call over real folders, and prints its status and what it wrote, unless that is what stands beside the script.
pub(crate) fn print_over_files<R: Threads + Wait + Sync>(
    threads: &R,
    rt: &HostRuntime,
    words: (&str, &str),
    script: Vec<u8>,
    beside: Option<&[u8]>,
) {
    let Ok(host) = rt.clone() else {
        drop(script);
        return say(rt, "no memory");
    };
    let mut site = HostSite::new(host);
    let ended = end_of(threads, words, &mut site, script, &CALM, &Open);
    drop(site);
    print_ended(rt, &ended, beside);
    drop(ended);
}

/// Prints a status and what was written, unless that is what stands beside the script.
pub(crate) fn print_ended(rt: &HostRuntime, ended: &Ended, beside: Option<&[u8]>) {
    let status = ended.status;
    match beside {
        Some(output) if output == ended.written() => {
            let _ = println!(rt; "status {status}, the output beside it");
        }
        _ => {
            let _ = println!(rt; "status {status}");
            put(rt, text_of(ended.written()));
        }
    }
}

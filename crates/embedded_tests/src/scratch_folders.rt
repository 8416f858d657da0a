//! Folders that a test makes and removes, and what the files of a disk have.

use crate::cases::done;
use std::process::Abort;
use std::{env, fs};

/// A folder of this name without files, in the system's folder for such.
pub fn empty_folder(rt: &impl Abort, host: &HostRuntime, name: &str) -> String {
    let room = done(rt, env::temp_dir(host));
    let room = room.as_str();
    let path = done(rt, format!(in host.alloc(); "{room}/mudtwill_{name}"));
    remove_folder(rt, host, path.as_str());
    done(rt, fs::create_dir_all(host, path.as_str()));
    path
}

/// Removes a folder with all that it has.
pub fn remove_folder(rt: &impl Abort, host: &HostRuntime, path: &str) {
    if done(rt, fs::exists(host, path)) {
        done(rt, fs::remove_dir_all(host, path));
    }
}

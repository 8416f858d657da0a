//! Folders that a test makes and removes, and what the files of a disk have.

use crate::items::{filled, is_same, put};
use dir_disk::DirDisk;
use disk::Disk;
use std::alloc::Global;
use std::process::Abort;
use std::{env, fs};

/// A folder of this name without files, in the system's folder for such.
pub fn empty_folder(rt: &impl Abort, host: &HostRuntime, name: &str) -> String {
    let room = env::temp_dir(host).expect(rt, "a folder for files of tests");
    let room = room.as_str();
    let path = format!(in host.alloc(); "{room}/mudtwill_{name}").expect(rt, "memory");
    remove_folder(rt, host, path.as_str());
    fs::create_dir_all(host, path.as_str()).expect(rt, "a folder");
    path
}

/// Removes a folder with all that it has.
pub fn remove_folder(rt: &impl Abort, host: &HostRuntime, path: &str) {
    if fs::exists(host, path).expect(rt, "a path") {
        fs::remove_dir_all(host, path).expect(rt, "a removal");
    }
}

/// The disk over this folder.
pub fn disk_over(rt: &impl Abort, host: &HostRuntime, folder: &str) -> DirDisk<HostRuntime> {
    DirDisk::new(*host, folder).expect(rt, "memory")
}

/// A file, and its bytes.
pub type Text = (u64, Vec<u8>);

fn text_of<D: Disk>(rt: &impl Abort, alloc: Global, disk: &mut D, file: u64) -> Text {
    let len = disk.length(file).expect(rt, "a length");
    let mut bytes = filled(rt, alloc, 0, len as usize);
    disk.read(file, 0, &mut bytes).expect(rt, "a read");
    (file, bytes)
}

/// The files of a disk with their bytes.
pub fn texts<D: Disk>(rt: &impl Abort, alloc: Global, disk: &mut D) -> Vec<Text> {
    let mut texts = Vec::new(alloc);
    for file in disk.files().expect(rt, "the files") {
        put(rt, &mut texts, text_of(rt, alloc, disk, file));
    }
    texts
}

/// Whether these are the same files with the same bytes.
pub fn are_same(found: &[Text], want: &[Text]) -> bool {
    if found.len() != want.len() {
        return false;
    }
    for (found, want) in found.iter().zip(want) {
        if found.0 != want.0 || !is_same(&found.1, &want.1) {
            return false;
        }
    }
    true
}

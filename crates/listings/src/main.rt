// Lists the frame files that its arguments name, each after its name: the gate's run over the files of data/. Here a read that fails counts as
// the file's end; lmf_list tells the two apart.

#![tactic(auto)]

use listing::{Lister, Stepped, Text};
use std::env::{Env, FillError};
use std::fs::File;
use std::io::{Error, ErrorKind};

fn put(rt: &HostRuntime, text: Text) {
    let bytes = text.bytes;
    let n = text.size();
    write(rt, &bytes[..n]);
}

fn write(rt: &HostRuntime, bytes: &[u8]) {
    let mut output = rt.stdout();
    streams::write_all(&mut output, bytes);
}

fn open(file: &File) -> Stepped {
    let mut input = file;
    let mut header = [0u8; 6];
    let n = streams::read_full(&mut input, &mut header);
    listing::open(&header[..n])
}

// Reads a record to the slice, or what there is of it.
fn step(file: &File, lister: Lister, record: &mut [u8]) -> Stepped {
    let mut input = file;
    let n = streams::read_full(&mut input, record);
    lister.step(&record[..n])
}

fn next(file: &File, lister: Lister) -> Stepped {
    let mut buf = [0u8; 960]; // the longest frame's bytes
    let want = lister.wanted();
    step(file, lister, &mut buf[..want])
}

// Line after line, to the last. A proved loop has to end, and nothing says that a file does: its
// turns are counted.
fn list(rt: &HostRuntime, file: &File) {
    let mut now = open(file);
    for _ in 0..u64::MAX {
        if now.used == 0 {
            break;
        }
        put(rt, now.text);
        now = next(file, now.lister);
    }
    put(rt, now.text);
}

fn list_file(rt: &HostRuntime, path: &[u8]) {
    match open_file(rt, path) {
        Ok(file) => list(rt, &file),
        Err(error) => {
            let mut errors = rt.stderr();
            streams::fail(&mut errors, path, &error);
        }
    }
}

// The file at a path. Std names files by text: a path that is no UTF-8 counts as one that names none.
fn open_file(rt: &HostRuntime, path: &[u8]) -> Result<File, Error> {
    match str::from_utf8(path) {
        Ok(text) => File::open(rt, text),
        Err(_) => Err(Error::from(ErrorKind::InvalidData)),
    }
}

// Lists what argument i names, after its name, and says whether there is one. A name that finds no room counts as empty.
fn list_named(rt: &HostRuntime, i: usize) -> bool {
    let mut path = io::buffer();
    let n = match rt.arg(i, &mut path) {
        Ok(n) => n,
        Err(FillError::TooLong) => 0,
        Err(FillError::NotPresent) => return false,
    };
    write(rt, &path[..n]);
    write(rt, b"\n");
    list_file(rt, &path[..n]);
    true
}

fn main(rt: HostRuntime) {
    for i in 1..usize::MAX {
        if !list_named(&rt, i) {
            break;
        }
    }
}

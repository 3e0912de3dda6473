//! A file that is created at its first write.

use std::fs::File;
use std::io::{self, Write};

/// The file at a path, which is created, or emptied, at the first write. Until then what stands there is left alone.
#[derive(Drop)]
pub(crate) struct Output<'a> {
    rt: &'a HostRuntime,
    path: &'a str,
    file: Option<File>,
}

impl<'a> Output<'a> {
    pub(crate) fn new(rt: &'a HostRuntime, path: &'a str) -> Output<'a> {
        Output {
            rt,
            path,
            file: None,
        }
    }
}

impl<'a> Write for Output<'a> {
    fn write(&mut self, buf: &[u8]) -> io::Result<usize> {
        let mut file = match self.file.take() {
            Some(file) => file,
            None => File::create(self.rt, self.path)?,
        };
        let taken = file.write(buf);
        self.file = Some(file);
        taken
    }

    fn flush(&mut self) -> io::Result<()> {
        match &mut self.file {
            Some(file) => file.flush(),
            None => Ok(()),
        }
    }
}

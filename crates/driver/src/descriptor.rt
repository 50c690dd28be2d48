// A descriptor that the program was started with, by its number: std has names for the first three alone.
//
// It is read and written in the mode that it is in. The kit's `io` tells how much a call moved. Why it moved
// nothing, the C library's error tells.
use io::{read_full, write_all};
use std::io::{Error, Read, Write};
use std_io::io::last_error;

#[derive(Clone, Copy)]
pub(crate) struct Descriptor {
    pub(crate) number: i32,
}

// The number of no descriptor, and the C library's error where a call is made on it.
const NONE: i32 = -1;

const BAD_DESCRIPTOR: i32 = 9;

// A call that succeeds leaves the C library's error as it was: this makes it a known one.
fn mark_error() {
    let _ = write_all(NONE, b" ");
}

// Whether no call has failed since the mark. (One that failed with the same error was made on no descriptor.)
fn is_marked(error: &Error) -> bool {
    error.raw_os_error() == Some(BAD_DESCRIPTOR)
}

impl Read for Descriptor {
    // A descriptor that is not there has ended. At most one byte is read.
    fn read(&mut self, buf: &mut [u8]) -> Result<usize, Error> {
        if buf.len() == 0 {
            return Ok(0);
        }
        mark_error();
        if read_full(self.number, &mut buf[..1]) == 1 {
            return Ok(1);
        }
        let error = last_error();
        if is_marked(&error) {
            return Ok(0);
        }
        Err(error)
    }
}

impl Write for Descriptor {
    fn write(&mut self, buf: &[u8]) -> Result<usize, Error> {
        for i in 0..buf.len() {
            if !write_all(self.number, &buf[i..i + 1]) {
                if 0 < i {
                    return Ok(i);
                }
                return Err(last_error());
            }
        }
        Ok(buf.len())
    }

    fn flush(&mut self) -> Result<(), Error> {
        Ok(())
    }
}

//! A reader's end, on both sides of the bound on reads.
use super::read_within;
use crate::status::Status;
use std::io;
use std::io::{ErrorKind, Read};

/// Is interrupted so often in a row, gives one byte at each of so many reads, and then its end.
#[derive(Drop)]
struct Drops {
    interrupts: usize,
    left: usize,
}

impl Read for Drops {
    fn read(&mut self, buf: &mut [u8]) -> io::Result<usize> {
        if let Some(interrupts) = self.interrupts.checked_sub(1) {
            self.interrupts = interrupts;
            return Err(io::Error::from(ErrorKind::Interrupted));
        }
        let (Some(to), Some(left)) = (buf.first_mut(), self.left.checked_sub(1)) else {
            return Ok(0);
        };
        *to = 7;
        self.left = left;
        Ok(1)
    }
}

#[test]
fn an_end_counts_within_the_bound_alone(rt: HostRuntime) {
    // The interrupted read, the reads of the bytes and the read of the end are asked for.
    let cases: &[(usize, u64, Option<usize>)] = &[
        (3, 0, None),
        (3, 1, None),
        (3, 4, None),
        (3, 5, Some(3)),
        (3, 6, Some(3)),
        (0, 1, None),
        (0, 2, Some(0)),
    ];
    for (left, most, count) in cases {
        let mut drops = Drops {
            interrupts: 1,
            left: *left,
        };
        let is_right = match (read_within(rt.alloc(), &mut drops, *most), *count) {
            (Ok(input), Some(count)) => {
                input.len() == count && input.iter().all(|byte| *byte == 7)
            }
            (Err(status), None) => status == Status::Fault,
            _ => false,
        };
        assert!(rt; is_right, "{left} bytes in {most} reads");
    }
}

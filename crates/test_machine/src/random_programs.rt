//! Small random programs, of every kind of statement and with choices.

use crate::failure::Failure;
use crate::words::Words;
use ick_bits::append_decimal;
use std::alloc::Global;

/// The input of each program.
pub const INPUT: &[u8] = b"ONE\nTWO\nTEN FOUR\nAB\nSIX FIVE FIVE THREE SIX\nthree\n";

const BEGINNING: &[u8] = b"DO ,1 <- #2\nDO ;1 <- #1\nPLEASE STASH .1+,1+;1\n";

const BODIES: [&[u8]; 48] = [
    b"READ OUT #1",
    b"%50 READ OUT .1+:1",
    b"%30 READ OUT ,1SUB#1",
    b"READ OUT ,1SUB#2+.1",
    b"%50 READ OUT ,1",
    b".1 <- #3",
    b"%50 .1 <- .1$#1",
    b":1 <- .1$.1",
    b"%50 :1 <- ':1~#7'$#5",
    b".1 <- ,1SUB#1",
    b",1 <- #2",
    b"%50 ,1 <- #1",
    b"%50 ,1 <- #2 BY .1",
    b"%70 ,1SUB#1 <- .1",
    b",1SUB#2 <- #238",
    b";1 <- #1",
    b"%50 ;1SUB#1 <- :1",
    b"%50 READ OUT ;1SUB#1",
    b"(1) NEXT",
    b"%50 (2) NEXT",
    b"(3) NEXT",
    b"%50 (4) NEXT",
    b"RESUME #1",
    b"%50 RESUME #2",
    b"%50 RESUME .1",
    b"%50 FORGET #1",
    b"FORGET .1",
    b"STASH .1",
    b"%50 STASH .1+,1+;1",
    b"%50 RETRIEVE .1",
    b"RETRIEVE ,1",
    b"%50 RETRIEVE ;1+.1",
    b"%50 IGNORE .1",
    b"IGNORE ,1+:1",
    b"REMEMBER .1+,1",
    b"%50 REMEMBER ;1+:1",
    b"%50 ABSTAIN FROM (2)",
    b"%50 ABSTAIN FROM READING OUT + NEXTING",
    b"ABSTAIN FROM CALCULATING",
    b"%50 REINSTATE (2)",
    b"REINSTATE READING OUT + CALCULATING",
    b"NOT READ OUT #5",
    b"%50 WRITE IN .1",
    b"WRITE IN .1+:1",
    b"%50 WRITE IN ,1SUB#1",
    b"%50 WRITE IN ,1",
    b"%20 GIVE UP",
    b"%20 SOMETHING ELSE",
];

/// Writes a program: arrays and stashes, and then four to twelve of the bodies, with labels from 1
/// on.
pub fn source_of(alloc: Global, words: &mut Words) -> Result<Vec<u8>, Failure> {
    let mut source = Vec::from_slice(alloc, BEGINNING)?;
    let last = 4 + words.below(9);
    for label in 1..=last {
        append_statement(&mut source, words, label)?;
    }
    Ok(source)
}

/// Appends a statement with a label. Every fourth statement is polite.
fn append_statement(source: &mut Vec<u8>, words: &mut Words, label: u32) -> Result<(), Failure> {
    let body = words.below(48);
    let head = if label % 4 == 0 {
        b") PLEASE ".as_slice()
    } else {
        b") DO "
    };
    source.push(b'(')?;
    append_decimal(source, u64::from(label))?;
    source.extend_from_slice(head)?;
    source.extend_from_slice(BODIES[body as usize])?;
    source.push(b'\n')?;
    Ok(())
}

//! Faults and their messages.

ghost use Rattle.std.specs.Prelude.{◌≤◌, ◌≡◌, ◌<◌, ◌+◌, ◌++◌, length};
ghost use Rattle.std.specs.Prelude.{OnOk, OnErr, vec_len, vec_capacity};
ghost use Rattle.ick_bits.specs.Faults.{fault_number, table_text, text_of};
ghost use Rattle.ick_bits.specs.Faults.{message_of, three_digits};

use crate::appending::append_all;
use crate::memory::NoMemory;
use itoa::Buffer;

/// The kinds of faults in a program or in its run (after Revised Manual, 9.2). The numbers and
/// texts are this profile's.
#[derive(Clone, Copy, Debug, PartialEq, Eq)]
pub enum FaultKind {
    /// The run executes a statement that has no form of the language.
    Unrecognised,
    /// A mesh is above 65535.
    MeshTooLarge,
    /// Fewer than a fifth of the statements are polite.
    Impolite,
    /// More than a third of the statements are polite.
    Fawning,
    /// NEXT with 79 entries on the NEXT stack.
    NextDepth,
    /// NEXT to a label that no statement has.
    NoNextLabel,
    /// ABSTAIN or REINSTATE of a label that no statement has.
    NoAbstainLabel,
    /// Two statements have one label.
    SameLabel,
    /// A label is outside 1 to 65535.
    LabelRange,
    /// A variable's number is outside 1 to 65535.
    NameRange,
    /// An array would get a dimension of 0.
    ZeroDimension,
    /// Subscripts do not fit the dimensions of their array, or an array would get more than 65,536
    /// elements.
    Hyperspace,
    /// A number above 65535 does not fit 16 bits.
    TooWide,
    /// RETRIEVE of a variable with nothing stashed.
    NothingStashed,
    /// A number is too large: an operand of mingle above 65535, or an input above 4294967295.
    SixtyFour,
    /// WRITE IN with no input left.
    NoInput,
    /// A word of the input is no digit.
    NoDigit,
    /// RESUME of no entry.
    ResumeZero,
    /// RESUME of more entries than the NEXT stack has.
    Rupture,
    /// The run went past the last statement.
    OffTheEdge,
}

/// The table of faults: for each kind, in their order, its number, and its text before the subject.
static TABLE: [(u16, &[u8]); 20] = [
    (0, b""),
    (17, b"DO YOU EXPECT ME TO FIGURE THIS OUT?"),
    (79, b"PROGRAMMER IS INSUFFICIENTLY POLITE"),
    (99, b"PROGRAMMER IS OVERLY POLITE"),
    (123, b"PROGRAM HAS DISAPPEARED INTO THE BLACK LAGOON"),
    (129, b"PROGRAM HAS GOTTEN LOST"),
    (139, b"I WASN'T PLANNING TO GO THERE ANYWAY"),
    (182, b"YOU MUST LIKE THIS LABEL A LOT!"),
    (197, b"SO! 65535 LABELS AREN'T ENOUGH FOR YOU?"),
    (200, b"NOTHING VENTURED, NOTHING GAINED"),
    (240, b"ERROR HANDLER PRINTED SNIDE REMARK"),
    (241, b"VARIABLES MAY NOT BE STORED IN WEST HYPERSPACE"),
    (275, b"DON'T BYTE OFF MORE THAN YOU CAN CHEW"),
    (436, b"THROW STICK BEFORE RETRIEVING!"),
    (533, b"YOU WANT MAYBE WE SHOULD IMPLEMENT 64-BIT VARIABLES?"),
    (562, b"I DO NOT COMPUTE"),
    (579, b"WHAT BASE AND/OR LANGUAGE INCLUDES "),
    (621, b"ERROR TYPE 621 ENCOUNTERED"),
    (
        632,
        b"THE NEXT STACK RUPTURES.  ALL DIE.  OH, THE EMBARRASSMENT!",
    ),
    (
        633,
        b"PROGRAM FELL OFF THE EDGE ON THE WAY TO THE NEW WORLD.",
    ),
];

impl FaultKind {
    /// Returns the number that the message prints with three digits. It is below 1000.
    pub fn number(self) -> u16
        ensures value { result ≡ fault_number self }
        ensures short { result < 1000 }
    {
        TABLE[self as usize].0
    }

    /// Returns the three decimal digits of the number, as ASCII bytes.
    pub fn digits(self) -> [u8; 3]
        ensures { result ≡ three_digits (fault_number self) }
    {
        let number = self.number();
        [
            b'0' + (number / 100) as u8,
            b'0' + (number / 10 % 10) as u8,
            b'0' + (number % 10) as u8,
        ]
    }

    /// Returns the text in pieces. Two kinds show the subject; the others leave it out.
    #[tactic(auto, unfolding(crate::specs::Faults::text_of))]
    fn text<'a>(self, subject: &'a [u8]) -> Text<'a>
        ensures { let pieces = result.before.now ++ result.subject.now ++ result.after.now in
            pieces ≡ text_of self subject.now }
    {
        let before = TABLE[self as usize].1;
        match self {
            FaultKind::Unrecognised => Text {
                before,
                subject,
                after: b"",
            },
            FaultKind::NoDigit => Text {
                before,
                subject,
                after: b"?",
            },
            _ => Text {
                before,
                subject: b"",
                after: b"",
            },
        }
    }
}

/// A message's text in pieces: before the subject, the subject, and after it.
#[derive(Clone, Copy)]
struct Text<'a> {
    before: &'a [u8],
    subject: &'a [u8],
    after: &'a [u8],
}

/// A fault of a statement.
#[derive(Clone, Copy, Debug)]
pub struct Fault<'a> {
    /// The kind of fault.
    pub kind: FaultKind,
    /// The statement's number, counted from 1, or 0 if the program has no statement.
    pub statement: u32,
    /// The bytes that the message shows: the statement's text for `Unrecognised`, the word for
    /// `NoDigit`. Other kinds show no subject.
    pub subject: &'a [u8],
}

/// Appends the three lines of a fault's message to `out`, each ended by byte 10 (Revised Manual,
/// 9.1). The lines are the number with the text, the number of the next statement, and the request
/// to try again. The subject's bytes are printed as they are.
///
/// Returns `NoMemory` only if `out` has no room for the whole message and cannot grow. `out` is
/// then unchanged.
#[tactic(auto, unfolding(crate::specs::Faults::message_of))]
pub fn append_message(out: &mut Vec<u8>, fault: &Fault<'_>) -> Result<(), NoMemory>
    ensures ok { let text = message_of fault.now.kind fault.now.statement fault.now.subject.now in
        OnOk result (out.new.items ≡ out.old.items ++ text) }
    ensures err { OnErr result (out.new.items ≡ out.old.items) }
    ensures full { let text = message_of fault.now.kind fault.now.statement fault.now.subject.now in
        OnErr result (vec_capacity out.old < vec_len out.old + length text) }
    ensures capacity { vec_capacity out.old ≤ vec_capacity out.new }
{
    let number = fault.kind.digits();
    let text = fault.kind.text(fault.subject);
    let mut buffer = Buffer::new();
    let next = buffer.format(u64::from(fault.statement) + 1).as_bytes();
    append_all(
        out,
        &[
            b"ICL",
            &number,
            b"I ",
            text.before,
            text.subject,
            text.after,
            b"\n        ON THE WAY TO ",
            next,
            b"\n        CORRECT SOURCE AND RESUBNIT\n",
        ],
    )
}

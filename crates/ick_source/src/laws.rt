//! Laws of every text. Each function does nothing, and its contract states the law.

ghost use Rattle.ick_source.specs.Laws.{OneBody, OneCut, OneReading, OneRefusal, OneStop};

/// States that at most one expression begins at a position, under one innermost delimiter, with one
/// end, one tree and one height (Revised Manual, 3.4; this profile).
pub fn one_reading()
    ensures { OneReading }
{}

/// States that at most one body begins at a byte, with one end and one tree (Revised Manual, 4.4).
pub fn one_body()
    ensures { OneBody }
{}

/// States that every text has exactly one cut into statements (this profile).
pub fn one_cut()
    ensures { OneCut }
{}

/// States that a text compiles to at most one list of statements, has at most one refusal, and
/// never has both. A text of at most 1,048,576 bytes has one of the two.
pub fn one_refusal()
    ensures { OneRefusal }
{}

/// States that at each position either a body is found, or reading stops at exactly one place,
/// where exactly one thing is wanted.
pub fn one_stop()
    ensures { OneStop }
{}

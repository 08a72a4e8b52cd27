//! Where the input of a run comes from that is read while it runs.

ghost use Rattle.std.specs.Prelude.{◌≡◌, ◌≢◌, ◌+◌, ◌<◌, ◌^◌, ◌∷◌};
ghost use Rattle.std.specs.Prelude.{ℕ, List, Bool, [], true, false, Ok, Some, None, IfErr};
ghost use Rattle.ick_code.specs.meaning.InputOutput.{first_line, later_lines};
ghost use Rattle.ick_devices.specs.Feeds.{feed_failures};
ghost use Rattle.ick_devices.specs.declared.feed_fault.FeedFault.TheVariants.{Read as ReadFailed};

use crate::feed_fault::FeedFault;

/// Input that is read while a run needs it, line by line or byte by byte, and no byte more.
///
/// A call takes just what it answers off the front of the input, and with a line also its end.
/// Before each call the count of failures must be below 2^64 - 1.
pub trait Feed {
    /// Whether `left` is what the reads will give. It is false if nothing is known of the source.
    ghost told: { Bool };

    /// The input that is left.
    ghost left: { Self → List ℕ };

    /// How many reads have failed.
    ghost failed: { Self → ℕ };

    /// The type of what every call keeps.
    ghost Held: { Type 0 };

    /// What every call keeps, as the name of a reference that the feed holds.
    ghost held: { Self → Self.Held };

    /// Returns how many reads have failed.
    fn failures(&self) -> u64
        ensures { result ≡ failed self.now };

    /// Sets the target to the next line without its end, and returns true; or returns false if no
    /// input is left. `Read` raises the count of failures by one, and every other answer leaves it
    /// unchanged.
    fn line(&mut self, target: &mut Vec<u8>) -> Result<bool, FeedFault>
        requires { failed self.old + 1 < 2 ^ 64 }
        ensures count { failed self.new ≡ failed self.old + feed_failures result }
        ensures held { held self.new ≡ held self.old }
        ensures one { result ≡ Ok true → first_line target.new.items ≡ target.new.items }
        ensures some { told ≡ true → result ≡ Ok true → (left self.old ≢ []) ×
            (target.new.items ≡ first_line (left self.old)) ×
            (left self.new ≡ later_lines (left self.old)) }
        ensures none { told ≡ true → result ≡ Ok false →
            (left self.old ≡ []) × (left self.new ≡ []) };

    /// Returns the next byte, or nothing if no input is left. It takes no memory. `Read` raises the
    /// count of failures by one, and every other answer leaves it unchanged.
    fn byte(&mut self) -> Result<Option<u8>, FeedFault>
        requires { failed self.old + 1 < 2 ^ 64 }
        ensures count { failed self.new ≡ failed self.old + feed_failures result }
        ensures held { held self.new ≡ held self.old }
        ensures errors { IfErr result (λ fault. fault ≡ ReadFailed) }
        ensures some { told ≡ true → (byte : ℕ) → result ≡ Ok (Some byte) →
            left self.old ≡ byte ∷ left self.new }
        ensures none { told ≡ true → result ≡ Ok None →
            (left self.old ≡ []) × (left self.new ≡ []) };
}

// An output that is written from its start on.
ghost use Rattle.std.specs.Prelude.{◌≡◌, ◌+◌, ◌≤◌, length};
ghost use Rattle.fields.specs.Decimals.{digits};
ghost use Rattle.fields.specs.Written.{Wrote};

use fields::write;

/// A lent output, and how many of its bytes are written.
#[derive(Drop)]
pub(crate) struct Output<'a> {
    pub bytes: &'a mut [u8],
    pub at: usize,
}

impl Output<'_> {
    /// Writes bytes behind what is written.
    pub(crate) fn put(&mut self, bytes: &[u8])
        requires { self.old.at + length bytes.now ≤ length self.old.bytes.now }
        ensures wrote { Wrote self.old.at bytes.now self.old.bytes.now self.new.bytes.now self.new.at }
        ensures same_reference { self.new.bytes.ghost_name ≡ self.old.bytes.ghost_name }
    {
        self.at = write::put(self.bytes, self.at, bytes);
    }

    /// Writes a number's decimal digits behind what is written.
    pub(crate) fn put_digits(&mut self, n: usize)
        requires { self.old.at + length (digits n) ≤ length self.old.bytes.now }
        ensures wrote { Wrote self.old.at (digits n) self.old.bytes.now self.new.bytes.now self.new.at }
        ensures same_reference { self.new.bytes.ghost_name ≡ self.old.bytes.ghost_name }
    {
        self.at = write::put_digits(self.bytes, self.at, n);
    }
}

// An output that a text is put into, piece after piece.
ghost use Rattle.std.specs.Prelude.{◌≡◌, ◌++◌, ◌+◌, ◌≤◌, length};
ghost use Rattle.wording.specs.Text.{ascii, decimal};
ghost use Rattle.printout.specs.Parts.{Lays};

// The text ends before place `at`.
#[derive(Drop)]
pub(crate) struct Sheet<'a> {
    out: &'a mut [u8],
    pub(crate) at: usize,
}

impl<'a> Sheet<'a> {
    // With no text yet.
    pub(crate) fn of(out: &'a mut [u8]) -> Sheet<'a>
        ensures same { result.out.ghost_name ≡ out.entry.ghost_name }
        ensures bytes { result.out.now ≡ out.old }
        ensures empty { result.at ≡ 0 }
    {
        Sheet { out, at: 0 }
    }

    pub(crate) fn put(&mut self, piece: &[u8])
        requires { self.old.at + length piece.now ≤ length self.old.out.now }
        ensures { Lays self.old piece.now self.new }
    {
        let end = self.at + piece.len();
        self.out[self.at..end].copy_from_slice(piece);
        self.at = end;
    }

    // A name and the digits of n, of which there are at most twenty.
    pub(crate) fn named(&mut self, name: &[u8], n: u64)
        requires { self.old.at + length name.now + 20 ≤ length self.old.out.now }
        ensures lays { Lays self.old (name.now ++ decimal n) self.new }
        ensures upper_bound { self.new.at ≤ self.old.at + length name.now + 20 }
    {
        let mut digits = [0u8; 20];
        let k = io::decimal(n, &mut digits);
        self.put(name);
        // Twenty places are lent, since nothing allocates, and k of them filled.
        self.put(&digits[..k]);
    }

    // The line of n.
    pub(crate) fn line(&mut self, name: &[u8], n: u64)
        requires { self.old.at + length name.now + 21 ≤ length self.old.out.now }
        ensures lays { Lays self.old (name.now ++ decimal n ++ ascii "\n") self.new }
        ensures upper_bound { self.new.at ≤ self.old.at + length name.now + 21 }
    {
        self.named(name, n);
        self.put(b"\n");
    }
}

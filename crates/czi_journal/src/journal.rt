/// The place of slot A, behind the head.
pub(crate) const SLOT_A: u64 = 64;

/// The place of slot B, behind slot A.
pub(crate) const SLOT_B: u64 = 262_208;

/// Bytes of the head and both slots.
pub(crate) const JOURNAL_LEN: u64 = 524_352;

/// Byte 0 of a journal that counts.
pub(crate) const MARK: u8 = 0x5a;

/// One of the two slots.
#[derive(Clone, Copy, PartialEq, Eq)]
pub enum Slot {
    A,
    B,
}

impl Slot {
    ghost use Rattle.std.specs.Prelude.{◌≡◌};
    ghost use Rattle.czi_journal.specs.Journals.{other, slot_place, selector};

    /// The slot that isn't this one.
    pub fn other(self) -> Slot
        ensures { result ≡ other self }
    {
        match self {
            Slot::A => Slot::B,
            Slot::B => Slot::A,
        }
    }

    /// Where it begins in the journal, in bytes.
    pub fn place(self) -> u64
        ensures { result ≡ slot_place self }
    {
        match self {
            Slot::A => SLOT_A,
            Slot::B => SLOT_B,
        }
    }

    /// The byte that selects it.
    pub fn selector(self) -> u8
        ensures { result ≡ selector self }
    {
        match self {
            Slot::A => 0,
            Slot::B => 1,
        }
    }
}

/// Where a journal stands.
#[derive(Clone, Copy, PartialEq, Eq)]
pub struct Journal {
    /// Whether the journal file counts.
    pub armed: bool,
    /// The slot that is selected, where it does.
    pub selected: Slot,
}

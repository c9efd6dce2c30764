//! The kinds of files that a request names.

ghost use Rattle.std.specs.Prelude.{◌≡◌, ◌≤◌, length};

/// The kind of a file that a request names: what the program reads the file as.
#[derive(Clone, Copy, PartialEq, Eq)]
pub enum Slot {
    /// The file of harmonic constants.
    File,
    /// The file with the table of subordinate stations.
    Offsets,
    /// The file of a time zone.
    Zone,
    /// The file of a certificate.
    Certificate,
}

impl Slot {
    ghost use Rattle.tide_fault.specs.Faults.{slot_name};

    /// Returns the word for this kind of file in the lines that report faults, such as `offsets`.
    pub fn text(self) -> &'static str
        ensures { result.now ≡ slot_name self }
    {
        match self {
            Slot::File => "file",
            Slot::Offsets => "offsets",
            Slot::Zone => "zone",
            Slot::Certificate => "certificate",
        }
    }
}

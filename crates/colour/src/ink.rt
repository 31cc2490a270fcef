// Inks, each with its number.
ghost use Rattle.std.specs.Prelude.{◌≡◌};
ghost use Rattle.colour.specs.Inks.{ink_number, ink_of};

/// To which station of the press a colour goes.
#[derive(Clone, Copy, Debug, PartialEq, Eq)]
pub enum Ink {
    Global,
    Spot,
    Normal,
    Process,
    NotStated,
}

impl Ink {
    /// The ink with a number.
    pub fn from(number: u32) -> Option<Ink>
        ensures { result ≡ ink_of number }
    {
        match number {
            0 => Some(Ink::Global),
            1 => Some(Ink::Spot),
            2 => Some(Ink::Normal),
            3 => Some(Ink::Process),
            4 => Some(Ink::NotStated),
            _ => None,
        }
    }

    /// Its number.
    pub fn number(self) -> u32
        ensures { result ≡ ink_number self }
    {
        match self {
            Ink::Global => 0,
            Ink::Spot => 1,
            Ink::Normal => 2,
            Ink::Process => 3,
            Ink::NotStated => 4,
        }
    }
}

//! Changes whose accepted reply holds nothing but the name of the form.

ghost use Rattle.std.specs.Prelude.{◌≡◌};

/// The form of a change whose accepted reply holds nothing but the form's name.
#[derive(Clone, Copy, Debug, PartialEq, Eq)]
pub enum Plain {
    /// An airport was added to the register.
    Airport,
    /// A runway was added to the register.
    Runway,
    /// A runway was removed from the register.
    DropRunway,
    /// A heliport was added to the register.
    Heliport,
    /// An airfield was removed from the register.
    Drop,
    /// The desk's day was set.
    Day,
    /// A day was recorded on which the government is closed (77.39(c)).
    Closed,
}

impl Plain {
    ghost use Rattle.wire_values.specs.Plains.{plain_word};

    /// The word of the form, the first field of its records.
    pub fn word(self) -> &'static str
        ensures { result.now ≡ plain_word self }
    {
        match self {
            Plain::Airport => "airport",
            Plain::Runway => "runway",
            Plain::DropRunway => "droprunway",
            Plain::Heliport => "heliport",
            Plain::Drop => "drop",
            Plain::Day => "day",
            Plain::Closed => "closed",
        }
    }
}

// The refusals.
ghost use Rattle.std.specs.Prelude.{◌≡◌};
ghost use Rattle.second.specs.Refusals.{number_of, record_of};

// Why a call is refused, by the table's words: with the faulty record, with the pairs that the list should
// hold, or with the task and the position that differ, 0 and 0 where counts do.
#[derive(Clone, Copy, PartialEq, Eq, Debug)]
pub enum Fault {
    Short,
    Edition,
    Extent,
    Count,
    Kind { record: u16 },
    Name { record: u16 },
    Life { record: u16 },
    Empty { record: u16 },
    Work,
    List { pairs: u32 },
    Event,
    Out,
    Starts,
    Differ { task: u16, position: u16 },
    Unsure,
    Flag { record: u16 },
    Stretch,
}

impl Fault {
    // Its number in the table.
    pub fn number(self) -> u16
        ensures { result ≡ number_of self }
    {
        match self {
            Fault::Short => 1,
            Fault::Edition => 2,
            Fault::Extent => 3,
            Fault::Count => 4,
            Fault::Kind { .. } => 5,
            Fault::Name { .. } => 6,
            Fault::Life { .. } => 7,
            Fault::Empty { .. } => 8,
            Fault::Work => 9,
            Fault::List { .. } => 10,
            Fault::Event => 11,
            Fault::Out => 12,
            Fault::Starts => 13,
            Fault::Differ { .. } => 14,
            Fault::Unsure => 15,
            Fault::Flag { .. } => 16,
            Fault::Stretch => 17,
        }
    }

    // The faulty record, where one is at fault.
    pub fn record(self) -> Option<u16>
        ensures { result ≡ record_of self }
    {
        match self {
            Fault::Kind { record }
            | Fault::Name { record }
            | Fault::Life { record }
            | Fault::Empty { record }
            | Fault::Flag { record } => Some(record),
            _ => None,
        }
    }
}

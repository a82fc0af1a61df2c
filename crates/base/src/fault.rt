ghost use Rattle.std.specs.Prelude.{◌≡◌};
ghost use Rattle.base.specs.Faults.{number_of, name_of, misfit_at, plain, about};

// Why a call or a line was refused.
#[derive(Clone, Copy, PartialEq, Eq, Debug)]
pub enum Refusal {
    BadSize = 1,
    BadLeader = 2,
    Misfit = 3,
    Full = 4,
    NoReplica = 5,
    NoJob = 6,
    NotInTransit = 7,
    NothingWaits = 8,
    WrongVoters = 9,
    LastEpoch = 10,
    BadLine = 11,
    UnknownLetter = 12,
    WrongFieldCount = 13,
    BadField = 14,
    MisplacedSetting = 15,
    ShortBuffer = 16,
    LongFile = 17,
}

// The number that reports and callers know the refusal by, which fits a byte.
impl From<Refusal> for u8 {
    ghost from_gives = { λ refusal number. number ≡ number_of refusal };

    fn from(refusal: Refusal) -> u8 {
        refusal as u8
    }
}

impl From<Refusal> for u32 {
    ghost from_gives = { λ refusal number. number ≡ number_of refusal };

    fn from(refusal: Refusal) -> u32 {
        u32::from(u8::from(refusal))
    }
}

// Where a refusal arose.
#[derive(Clone, Copy, PartialEq, Eq, Debug)]
pub enum Layer {
    Book,
    Log,
    Group,
    Text,
}

impl Layer {
    // A method, since `<&str>::from(layer)` would say no more, and `Display` needs memory for its text.
    pub fn name(self) -> &'static str
        ensures { result.now ≡ name_of self }
    {
        match self {
            Layer::Book => "book",
            Layer::Log => "log",
            Layer::Group => "group",
            Layer::Text => "text",
        }
    }
}

// A refusal with the field it is about, if any, and the layer it arose in.
// Higher layers pass it on by `?` as it is.
#[derive(Clone, Copy, PartialEq, Eq, Debug)]
pub struct Fault {
    pub number: Refusal,
    pub field: Option<u8>,
    pub layer: Layer,
}

impl Fault {
    // A refusal that is about no field.
    pub fn of(number: Refusal, layer: Layer) -> Fault
        ensures { result ≡ plain number layer }
    {
        Fault {
            number,
            field: None,
            layer,
        }
    }

    // A refusal that is about the field at this place.
    pub fn at(field: u8, number: Refusal, layer: Layer) -> Fault
        ensures { result ≡ about field number layer }
    {
        Fault {
            number,
            field: Some(field),
            layer,
        }
    }

    // A record that its book doesn't take, by the first field that is wrong.
    pub fn misfit(field: u8) -> Fault
        ensures { result ≡ misfit_at field }
    {
        Fault::at(field, Refusal::Misfit, Layer::Book)
    }
}

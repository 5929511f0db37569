// Commands, as they stand in standard input (reference/src/script.rs describes the format).

// A number that names nothing.
#[derive(Debug, Drop)]
pub struct Unknown;

// The buffers of words, by their numbers.
#[derive(Clone, Copy)]
pub enum Words {
    Raw,
    Full,
    Log,
    Block,
    Out,
    Scratch,
}

impl TryFrom<u32> for Words {
    ghost use Rattle.test_case_buffers.specs.Numbers.{NamesWords};

    type Error = Unknown;

    ghost try_from_gives = { NamesWords };

    fn try_from(number: u32) -> Result<Words, Unknown> {
        Ok(match number {
            0 => Words::Raw,
            1 => Words::Full,
            2 => Words::Log,
            3 => Words::Block,
            4 => Words::Out,
            5 => Words::Scratch,
            _ => return Err(Unknown),
        })
    }
}

// The buffers of bytes: those of the first reading, and of the second.
#[derive(Clone, Copy)]
pub enum Bytes {
    Image,
    List,
    Image2,
    List2,
}

// Any number names one of the four.
impl From<u32> for Bytes {
    ghost use Rattle.test_case_buffers.specs.Numbers.{NamesBytes};

    ghost from_gives = { NamesBytes };

    fn from(number: u32) -> Bytes {
        match number {
            0 => Bytes::Image,
            1 => Bytes::List,
            2 => Bytes::Image2,
            _ => Bytes::List2,
        }
    }
}

// What is set: a number of the header, or how much of a buffer is lent.
#[derive(Clone, Copy)]
pub enum Number {
    K,
    S,
    C,
    Words(Words),
    Bytes(Bytes),
}

impl TryFrom<u32> for Number {
    ghost use Rattle.test_case_buffers.specs.Numbers.{NamesNumber};

    type Error = Unknown;

    ghost try_from_gives = { NamesNumber };

    fn try_from(number: u32) -> Result<Number, Unknown> {
        Ok(match number {
            0 => Number::K,
            1 => Number::S,
            2 => Number::C,
            9..=12 => Number::Bytes(Bytes::from(number - 9)),
            _ => Number::Words(Words::try_from(number - 3)?),
        })
    }
}

// A change between calls.
#[derive(Clone, Copy)]
pub enum Change {
    Set(Number, u32),
    // All that is lent of a buffer becomes words below a bound (0: any words), drawn from a seed.
    Fill {
        buffer: Words,
        bound: u32,
        seed: u32,
    },
    // One word of a buffer.
    Put(Words, u32, u32),
    // So many bytes, which follow in standard input, are put into a buffer from an index on.
    Load {
        buffer: Bytes,
        at: u32,
        count: u32,
    },
    // Bytes of the image become any bytes, drawn from a seed.
    Garble {
        from: u32,
        count: u32,
        seed: u32,
    },
    // The two readings change places.
    Exchange,
}

// A call of the vault, or a listing.
#[derive(Clone, Copy)]
pub enum Call {
    Open,
    Write { record: u32 },
    Strike { record: u32 },
    Read { record: u32 },
    Image,
    Decode { stripe: u32 },
    Recover,
    List,
    Explain { counts: u32 },
    Powers,
    TakeBack { scratch: u32 },
    RecoverTwo,
    ShelfOfTwo { stripe: u32 },
}

// What a test does.
#[derive(Clone, Copy)]
pub enum Command {
    Change(Change),
    Call(Call),
}

// A kind and three numbers, where they name something.
impl TryFrom<(u8, [u32; 3])> for Command {
    ghost use Rattle.test_case_buffers.specs.Commands.{NamesCommand};

    type Error = Unknown;

    ghost try_from_gives = { NamesCommand };

    fn try_from((kind, [a, b, d]): (u8, [u32; 3])) -> Result<Command, Unknown> {
        Ok(match kind {
            0 => Command::Change(Change::Set(Number::try_from(a)?, b)),
            1 => Command::Change(Change::Fill {
                buffer: Words::try_from(a)?,
                bound: b,
                seed: d,
            }),
            2 => Command::Change(Change::Put(Words::try_from(a)?, b, d)),
            3 => Command::Change(Change::Load {
                buffer: Bytes::from(a),
                at: b,
                count: d,
            }),
            4 => Command::Change(Change::Garble {
                from: a,
                count: b,
                seed: d,
            }),
            5 => Command::Call(Call::Open),
            6 => Command::Call(Call::Write { record: a }),
            7 => Command::Call(Call::Read { record: a }),
            8 => Command::Call(Call::Image),
            9 => Command::Call(Call::Decode { stripe: a }),
            10 => Command::Call(Call::Recover),
            11 => Command::Call(Call::List),
            12 => Command::Call(Call::Explain { counts: a }),
            13 => Command::Call(Call::Powers),
            14 => Command::Call(Call::TakeBack { scratch: a }),
            15 => Command::Call(Call::RecoverTwo),
            16 => Command::Call(Call::ShelfOfTwo { stripe: a }),
            17 => Command::Change(Change::Exchange),
            18 => Command::Call(Call::Strike { record: a }),
            _ => return Err(Unknown),
        })
    }
}

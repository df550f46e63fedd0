//! Calls of a store, drawn at random.

ghost use Rattle.std.specs.Prelude.{◌<◌};

/// A sequence of numbers that look random and are the same each time.
#[derive(Drop)]
pub(crate) struct Dice {
    state: u64,
}

impl Dice {
    pub(crate) fn new(seed: u64) -> Dice {
        Dice { state: seed }
    }

    /// A number below the count of sides.
    pub(crate) fn roll(&mut self, sides: u64) -> u64
        requires { 0 < sides }
        ensures { result < sides }
    {
        self.state = self
            .state
            .wrapping_mul(6_364_136_223_846_793_005)
            .wrapping_add(1_442_695_040_888_963_407);
        (self.state >> 33) % sides
    }
}

/// Up to three bytes, each of which may follow each other one.
#[derive(Clone, Copy, Debug)]
pub(crate) struct Key {
    bytes: [u8; 3],
    len: u8,
}

const LETTERS: [u8; 4] = [0x61, 0x62, 0x71, 0xff];

fn letter(dice: &mut Dice) -> u8 {
    let side = dice.roll(4);
    LETTERS[side as usize]
}

impl Key {
    /// A key at random.
    pub(crate) fn drawn(dice: &mut Dice) -> Key {
        let bytes = [letter(dice), letter(dice), letter(dice)];
        let len = dice.roll(4) as u8;
        Key { bytes, len }
    }

    pub(crate) fn as_slice(&self) -> &[u8] {
        let bytes = &self.bytes;
        match self.len {
            0 => &bytes[..0],
            1 => &bytes[..1],
            2 => &bytes[..2],
            _ => bytes,
        }
    }
}

/// A call of a store.
#[derive(Clone, Copy, Debug)]
pub(crate) enum Call {
    Set(Key, u8),
    Remove(Key),
    Get(Key),
    Below(Key),
    Mark,
    Keep,
    Back,
    Root,
}

impl Call {
    /// A call at random.
    pub(crate) fn drawn(dice: &mut Dice) -> Call {
        let key = Key::drawn(dice);
        match dice.roll(16) {
            0..=4 => Call::Set(key, dice.roll(256) as u8),
            5..=7 => Call::Remove(key),
            8 => Call::Get(key),
            9 => Call::Below(key),
            10 | 11 => Call::Mark,
            12 => Call::Keep,
            13 | 14 => Call::Back,
            _ => Call::Root,
        }
    }
}

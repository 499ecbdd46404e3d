use asm_sign::FunKind;

/// A function that is read: its number and its kind.
#[derive(Clone, Copy, Debug)]
pub struct Read {
    pub number: u32,
    pub kind: FunKind,
}

/// Of which functions reads are looked for.
#[derive(Clone, Copy, Debug)]
pub enum Reading {
    Dynamic,
    Monitored,
}

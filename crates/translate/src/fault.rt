// Why a program is not translated.

#[derive(Clone, Copy, PartialEq, Eq, Debug)]
pub enum TranslateFault {
    // the memory is too short: how many words are needed
    TooShort(usize),
}

//! The refusals, each with the offset that it points at where it points at one.

#[derive(Clone, Copy, Debug, PartialEq, Eq)]
pub enum Refusal {
    // a text of more than 65,536 bytes
    TextTooLong,
    // a memory too short for a store, or a limit of stores broken
    MemoryUnfit,
    // a key or a closing outside the store's
    KeyOutside,
    // a record or a buffer that is not of the store's width
    WrongWidth,
    // no room
    Full,
    // bytes that are no amount's
    BadAmount(usize),
    // a joint amount that cannot be written
    JoinUnwritable(usize),
    // a depth over 20, or a closing that is not 1 to 9,999
    BadLimits,
    // the closing stands already
    AlreadyStands,
    // eight closings stand
    EightStand,
    // a store that does not suit
    StoreUnsuited,
    // a customer number or a salt that is not 16 bytes
    BadIdentity,
    // every leaf is taken
    LeavesTaken,
    // a closing that does not stand, or a leaf that was not entered
    NotStanding,
    // a buffer shorter than what is to be written
    BufferTooShort,
    // a sheet of another length
    SheetLength,
    // another kind of amount or digest than the reader's
    OtherKind,
    // a file of another length
    FileLength,
    // the file's first seven bytes are not the sheet's
    OtherSheet,
    // a leaf number that the depth does not have
    LeafOutside,
    // the top of the path is not the root
    RootDiffers,
    // two texts are shown now
    TwoTexts,
    // two texts were shown before
    TextsShown,
}

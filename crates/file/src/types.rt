//! The fields of a file, each a part of the file itself.
ghost use Rattle.std.specs.Prelude.{◌≡◌};
ghost use Rattle.file.specs.Fields.{bytes_of, name_of};

#[derive(Clone, Copy)]
pub enum Field<'a> {
    Head(&'a [u8]),
    Customer(&'a [u8]),
    Salt(&'a [u8]),
    Balance(&'a [u8]),
    Step(&'a [u8]),
}

impl<'a> Field<'a> {
    // What it is called.
    pub fn name(self) -> &'static str
        ensures { result.now ≡ name_of self.entry }
    {
        match self {
            Field::Head(_) => "head",
            Field::Customer(_) => "customer",
            Field::Salt(_) => "salt",
            Field::Balance(_) => "balance",
            Field::Step(_) => "step",
        }
    }

    // The part of the file that it is.
    pub fn part(self) -> &'a [u8]
        ensures { result.now ≡ bytes_of self.entry }
    {
        match self {
            Field::Head(part)
            | Field::Customer(part)
            | Field::Salt(part)
            | Field::Balance(part)
            | Field::Step(part) => part,
        }
    }
}

// A field, and where it begins in the file.
#[derive(Clone, Copy)]
pub struct Found<'a> {
    pub field: Field<'a>,
    pub offset: usize,
}

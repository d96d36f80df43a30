//! The files of a line, as far as their texts are read.

ghost use Rattle.std.specs.Prelude.{◌≡◌, ◌^◌, ◌<◌, [], length, slice_index_or};
ghost use Rattle.rml_top.specs.Names.{names_in};

/// The names of the texts of a line, which are words of it.
#[derive(Clone, Copy)]
pub enum FileNames<'a> {
    One(&'a str),
    Each(&'a [String]),
}

impl FileNames<'_> {
    pub fn len(&self) -> usize
        ensures { result ≡ length (names_in self.now) }
    {
        match self {
            FileNames::One(_) => 1,
            FileNames::Each(files) => files.len(),
        }
    }

    /// The name of that number, from 0. It is empty where there is none.
    pub fn name(&self, number: usize) -> &str
        ensures { result.now ≡ slice_index_or (names_in self.now) number [] }
    {
        match self {
            FileNames::One(file) if number == 0 => file,
            FileNames::One(_) => "",
            FileNames::Each(files) => match files.get(number) {
                Some(file) => file.as_str(),
                None => "",
            },
        }
    }
}

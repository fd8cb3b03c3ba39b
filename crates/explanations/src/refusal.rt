/// A printed line that ends a command at its words or files, in its parts. The place is a decimal
/// number; it and the fault are empty for a file that can't be read.
#[derive(Clone, Copy)]
pub(crate) struct Refusal<'a> {
    pub role: &'a str,
    pub place: &'a str,
    pub fault: &'a str,
}

impl Refusal<'_> {
    /// The place as an offset, an index or the number of a line; 0 where it is none of them.
    pub fn number(&self) -> usize {
        self.place.parse::<usize>().unwrap_or(0)
    }
}

/// The parts of `refused ROLE PLACE FAULT` or `fault ROLE`; none of any other line.
pub(crate) fn refusal_in(line: &str) -> Option<Refusal<'_>> {
    let line = line.strip_suffix('\n')?;
    let (word, rest) = line.split_once(' ')?;
    if word == "fault" {
        return Some(Refusal {
            role: rest,
            place: "",
            fault: "",
        });
    }
    if word != "refused" {
        return None;
    }
    let (role, rest) = rest.split_once(' ')?;
    let (place, fault) = rest.split_once(' ')?;
    Some(Refusal { role, place, fault })
}

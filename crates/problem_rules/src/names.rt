ghost use Rattle.std.specs.Prelude.{◌≡◌, nat_lt};
ghost use Rattle.std.specs.List.{list_all};
ghost use Rattle.tp_spec.specs.Lists.{each_next};
ghost use Rattle.tp_spec.specs.WellFormed.{is_name as is_name_of, is_name_byte as is_name_byte_of, name_before};

use tp_spec::Name;

/// Whether a byte may stand in a word of a name.
fn is_name_byte(byte: u8) -> bool
    ensures { result ≡ is_name_byte_of byte }
{
    33 <= byte
        && byte <= 126
        && !(65 <= byte && byte <= 90)
        && !(byte == 40 || byte == 41 || byte == 59)
}

/// Whether a text is a name: words with one space between them.
pub fn is_name(text: &[u8]) -> bool
    ensures { result ≡ is_name_of text.now }
{
    let mut wanted = true;
    for byte in text {
        if *byte == 32 {
            if wanted {
                return false;
            }
            wanted = true;
        } else {
            if !is_name_byte(*byte) {
                return false;
            }
            wanted = false;
        }
    }
    !wanted
}

/// Whether each is a name.
pub fn are_names(names: &[Name]) -> bool
    ensures { result ≡ list_all is_name_of names.now }
{
    names.iter().all(|name| is_name(name.as_str().as_bytes()))
}

/// Whether names rise strictly by their bytes.
pub fn names_rise(names: &[Name]) -> bool
    ensures { result ≡ each_next name_before names.now }
{
    let mut rest = names;
    'pairs: loop {
        match rest {
            [first, tail @ ..] => match tail {
                [second, ..] => {
                    if !(first.as_str() < second.as_str()) {
                        return false;
                    }
                    rest = tail;
                }
                [] => return true,
            },
            [] => return true,
        }
    }
}

/// Whether numbers rise strictly.
pub fn numbers_rise(numbers: &[u32]) -> bool
    ensures { result ≡ each_next nat_lt numbers.now }
{
    let mut rest = numbers;
    'pairs: loop {
        match rest {
            [first, tail @ ..] => match tail {
                [second, ..] => {
                    if !(*first < *second) {
                        return false;
                    }
                    rest = tail;
                }
                [] => return true,
            },
            [] => return true,
        }
    }
}

/// Whether each number is below a bound.
pub fn all_below(numbers: &[u32], bound: usize) -> bool
    ensures { result ≡ list_all (λ f. nat_lt f bound) numbers.now }
{
    numbers.iter().all(|number| (*number as usize) < bound)
}

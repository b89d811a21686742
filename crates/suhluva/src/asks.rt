//! What each case asks, in a few words.

/// How many cases there are.
const CASES: usize = 24;

/// What each case asks: that this is so. In the order of the cases, from 1 on.
const ASKS: [&str; CASES] = [
    "the file is there if the profile requires it, and only then",
    "the file is one template with its own tag, and ends where the template ends",
    "whole objects with shortest lengths fill the template, down to level 16",
    "EF.COM holds 5F01, 5F36 and 5C in this order, and nothing else",
    "5F01 is the text 0107",
    "5F36 is the text 040000",
    "5C lists tags of data groups, without repetition",
    "5C names each declared group and no other",
    "DG1 holds 5F1F alone, with a zone of the length of its kind",
    "the zone has letters, digits and fillers alone",
    "the code begins with P (TD3) or with A, C or I (TD1, TD2), and goes on as its kind allows",
    "the issuer is one to three letters, and then fillers",
    "the name begins with a letter, and between letters stand single fillers and at most one pair",
    "the number does not begin with a filler, and the right check digit stands behind it",
    "the nationality is one to three letters, and then fillers",
    "the birth is a date with the right check digit",
    "the sex is M, F or a filler",
    "the expiry is a date with the right check digit",
    "the check digit of the optional field is right, or both are fillers alone",
    "the composite digit is right",
    "DG2 holds 7F61 alone, with a count from 1 to 9, as many 7F60, and nothing else",
    "in each 7F60 stand one A1 and behind it one 5F2E with at least one byte, and nothing else",
    "each A1 has known features in rising order, with 87 as 0101 and 88 as 0008",
    "EF.SOD holds one 30 and nothing else",
];

/// What a case asks; nothing where there is no such case.
pub(crate) fn what_case_asks(case: u8) -> &'static str {
    let Some(index) = usize::from(case).checked_sub(1) else {
        return "";
    };
    ASKS.get(index).copied().unwrap_or("")
}

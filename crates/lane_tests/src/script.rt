//! The words, the numbers and the texts of a script.
use std::alloc::Global;
use std::sync::Arc;
use std::test::Fail;
use test_plans::plan_of;
use trace_core::Plan;

/// Returns the words of a line, which have one space between them.
pub(crate) fn words_of<'a>(alloc: Global, line: &'a str) -> Result<Vec<&'a str>, Fail> {
    let mut words = Vec::new(alloc);
    for word in line.split(' ') {
        words.push(word)?;
    }
    Ok(words)
}

/// Returns the numbers that words are.
pub(crate) fn numbers_of(alloc: Global, words: &[&str]) -> Result<Vec<u32>, Fail> {
    let mut numbers = Vec::new(alloc);
    for word in words {
        numbers.push(word.parse::<u32>()?)?;
    }
    Ok(numbers)
}

/// Returns the text of a name, from the section whose first line is `text NAME`, if there is one.
fn text_in<'a>(script: &'a str, name: &str) -> Option<&'a str> {
    for section in script.split("\n\n") {
        if let Some((first, text)) = section.split_once('\n') {
            if first.strip_prefix("text ") == Some(name) {
                return Some(text);
            }
        }
    }
    None
}

/// Returns the plan of the text of a name.
pub(crate) fn plan_in(alloc: Global, script: &str, name: &str) -> Result<Arc<Plan>, Fail> {
    match text_in(script, name) {
        Some(text) => plan_of(alloc, text),
        None => Err("the script has no text of this name")?,
    }
}

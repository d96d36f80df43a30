//! Small sets of texts with the fault that each has, and tests over them: which fault is named, and where. There is nothing else here.
#![tactic(auto)]

#[cfg(test)]
mod one_text;
#[cfg(test)]
mod sample;
#[cfg(test)]
mod some_texts;

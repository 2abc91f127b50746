//! Tests of the tables: calls, replies and files; the frames' tables; swap and anonymous pages; zero objects; translations and
//! address spaces; marks of blocks. There is nothing here but tests.
#![tactic(auto)]

#[cfg(test)]
mod anon_tests;
#[cfg(test)]
mod chain_tests;
#[cfg(test)]
mod clock_tests;
#[cfg(test)]
mod core_tests;
#[cfg(test)]
mod file_tests;
#[cfg(test)]
mod hat_tests;
#[cfg(test)]
mod list_tests;
#[cfg(test)]
mod lock_tests;
#[cfg(test)]
mod map_tests;
#[cfg(test)]
mod mark_tests;
#[cfg(test)]
mod name_tests;
#[cfg(test)]
mod space_tests;
#[cfg(test)]
mod swap_tests;
#[cfg(test)]
mod word_tests;
#[cfg(test)]
mod zero_tests;

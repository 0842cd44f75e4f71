//! Requests and replies as JSON and over HTTP, read and written. It has tests alone.
#![tactic(auto)]

#[cfg(test)]
mod http_cases;
#[cfg(test)]
mod http_tests;
#[cfg(test)]
mod reply_tests;
#[cfg(test)]
mod request_tests;
#[cfg(test)]
mod values;

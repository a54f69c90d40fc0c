// Whoever helps: texts in, answers out. What such a helper promises, one enum for what is asked of it and one for what it replies, and
// what follows for any list of requests. Nothing here knows how texts are kept or how answers are come by.
#![tactic(auto)]

pub mod contract;
pub mod request;
pub mod run;
pub mod theorems;

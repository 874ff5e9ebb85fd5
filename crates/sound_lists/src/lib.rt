// Whether lists fit: R1, the lists of attached regions and page order, a stage of the soundness test. Each function answers for any words.
#![tactic(auto)]

pub mod apart;
pub mod lists;
pub mod pages;

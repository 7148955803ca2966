//! MatchSets: what AllMatches have in common that satisfy alike.
//!
//! Outside `occurs` it tells nothing how often a Match stands in AllMatches, and numbers of phrases tell nothing but their order. So a choice of
//! phrases is one phrase, which has the hits of all. Definitions and laws, no code.
#![tactic(auto)]

pub mod examples;
pub mod laws;

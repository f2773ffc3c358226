//! Counting the places of a list: how many hold a value, which value most of them hold, and the
//! pigeonhole lemmas on which every law of votes and kings rests. Definitions and lemmas only.
#![tactic(auto)]

//! What commands, scripts and transcripts are, as definitions.
//!
//! `Command` says which command the words of a command line spell, and `Spelled` how they are spelled. `Script` has a
//! script's programs, `ScriptLines` each line's grammar, and `ScriptText` which script a text is, or the line and the first rule
//! that it breaks. `Transcript` has the printed lines of a world and of refusals. `proofs/ScriptCases.antt` has small
//! scripts that these definitions compute.
#![tactic(auto)]

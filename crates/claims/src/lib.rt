//! What is claimed of the functions of a group and of the machine's states, as definitions alone:
//! no proof and no text is among them.
//!
//! `Headline` says that what evaluation of the functions gives, the machine does, and `Exact` and
//! `LinkExact` that what the machine does, evaluation gives; `CountsSteps` bounds the steps of the
//! machine by the turns of evaluation, and these by those. All of them speak of a state that stands
//! at a function's entry (`Starts`), and of one in which it has ended (`Ends`), over regions of
//! memory. A text that is accepted makes the first true of its functions; what the decompiler
//! writes has all of them.
#![tactic(auto)]

//! Checks that the definitions mean what they should, on small modules.
//!
//! Each function here does nothing: its contract is a fact on modules that are written out, which the prover
//! computes from the definitions. So a definition that says another thing than meant shows here.

ghost use Rattle.checks.specs.Analysis.{OnlySleeperPauses};
ghost use Rattle.checks.specs.Beginnings.{EachFileDecided};
ghost use Rattle.checks.specs.Files.{AllFound, FloatFound, beginnings, files};
ghost use Rattle.validate_bodies.specs.BodyVerdicts.{EachModuleDecided, VerdictIsTyping};
ghost use Rattle.checks.specs.Faults.{AllSay, body_cases, module_cases, valid_cases};
ghost use Rattle.checks.specs.Lists.{Listings, Lists};
ghost use Rattle.checks.specs.Images.{Images, NoImages, OneCallImage};
ghost use Rattle.checks.specs.Rows.{Measures, Rooms, SavedLocals};

/// What is computed of a body is its typing and its first fault.
pub fn verdict_is_typing()
    ensures { VerdictIsTyping }
{}

/// Each module is valid or has a first fault, and which of them is computed.
pub fn each_module_decided()
    ensures { EachModuleDecided }
{}

/// Modules that break a rule outside their bodies, each with its first fault.
pub fn rules_outside_bodies()
    ensures { AllSay module_cases }
{}

/// Modules with a body that breaks a rule, each with its first fault.
pub fn rules_in_bodies()
    ensures { AllSay body_cases }
{}

/// Modules that are valid.
pub fn valid_modules()
    ensures { AllSay valid_cases }
{}

/// The bytes that suspended stacks of small programs take.
pub fn rooms()
    ensures { Rooms }
{}

/// The locals that frames of small programs save.
pub fn saved_locals()
    ensures { SavedLocals }
{}

/// What functions of small programs weigh, how many locals they get and which of their calls have numbers.
pub fn measures()
    ensures { Measures }
{}

/// What texts spell as lists of imports.
pub fn lists()
    ensures { Lists }
{}

/// Which names lists of imports list.
pub fn listings()
    ensures { Listings }
{}

/// Which functions of a small program may pause.
pub fn only_sleeper_pauses()
    ensures { OnlySleeperPauses }
{}

/// What memory holds while a call waits.
pub fn one_call_image()
    ensures { OneCallImage }
{}

/// What memory holds while values of both widths, live values alone and two activations wait.
pub fn images()
    ensures { Images }
{}

/// Bytes that are not what memory holds while a call waits.
pub fn no_images()
    ensures { NoImages }
{}

/// Whether bytes are a whole file, or else the least place at which they can't be one, is computed.
pub fn each_file_decided()
    ensures { EachFileDecided }
{}

/// Small files, whole ones and others, each with the place where it fails.
pub fn files_fail_at_their_places()
    ensures { AllFound files }
{}

/// Each beginning of a module's file fails at its end, but for the four that are whole files.
pub fn beginnings_of_a_module()
    ensures { AllFound beginnings }
{}

/// The offset of a float in code that can't be reached.
pub fn a_float_in_dead_code_is_marked()
    ensures { FloatFound }
{}

//! What it is for an image to follow a program, and that the image of each well formed program of versions does: functions that do
//! nothing, whose clauses are the laws.
//!
//! In specs/, `Follows` has the promise. Of the machine: `Relation` says what it is to come from one state to another and for
//! instructions to stand at a place, `Laws` how ways are joined and why a simulation is enough, `Effects` what the templates of code and
//! the stubs do, `Selections` where the code of steps stands and what operands leave, `Frames` how a frame lies in memory, `Encodings`
//! that all of it has words. Of programs: `Plans` has the one of a plan, `Layouts` where its image has what, `Related` the one relation
//! between a state of the run and a state of the machine, `Rows` what each row of the step table keeps of it, and `Starts` that the
//! machine follows the program from its start. Of images: `Direct` has the image of a plan with no relocation, `Patched` says that
//! relocations make a function's code in an object its code at an address, `Images` what the machine finds in an image that is built of
//! code and arrays, `DirectImages` where that of a plan has what, and `FirstStates` how its run begins.
#![tactic(auto)]

ghost use Rattle.follow_laws.specs.DirectImages.{DirectLoads, DirectIsPlaced};
ghost use Rattle.follow_laws.specs.Effects.{ConstantSets, LoadSets, StoreStores, CallGoes, EnterMakesFrame, LeaveReturns, StartCalls, ExitEnds, PutcharWrites, GetcharReads};
ghost use Rattle.follow_laws.specs.Encodings.{ConstantEncodes, LoadEncodes, StoreEncodes, CallEncodes, EnterEncodes, LeaveEncodes, StubsEncode, BothEncode};
ghost use Rattle.follow_laws.specs.FirstStates.{StartIsAtStart};
ghost use Rattle.follow_laws.specs.Frames.{LowByteKept, FreshHeld, StoreApart, StoreSets, OperandHeld, DataReached};
ghost use Rattle.follow_laws.specs.Images.{PartsLoad, PartsHaveSegments, PartsHaveData, PartsHaveCode};
ghost use Rattle.follow_laws.specs.Laws.{ComesOn, LeadsOn, LeadsTwice, LeadsComes, ComesToLead, ComesToEnd, InstructionLeads, FrontStands, BackStands, SimulationFollows};
ghost use Rattle.follow_laws.specs.Patched.{PatchedIsDirect, OwnNamesPatched, SameLength, NamesStand, PlaceHasName};
ghost use Rattle.follow_laws.specs.Rows.{NopRow, LabelRow, GotoRow, CopiesRow, UnaryRow, ConvertRow, BinaryRow, CondRow, SwitchRow, LoadRow, StoreRow, PutcharRow, GetcharRow, ExitRow, CallRow, ReturnRow};
ghost use Rattle.follow_laws.specs.Selections.{StepsStand, OperandSets, OperandEncodes};
ghost use Rattle.follow_laws.specs.Starts.{MachineFollows};

/// How the machine's ways from state to state are joined, and instructions that stand one after the other are parted.
pub fn ways()
    ensures comes { ComesOn }
    ensures leads { LeadsOn }
    ensures twice { LeadsTwice }
    ensures leads_comes { LeadsComes }
    ensures comes_to_lead { ComesToLead }
    ensures comes_to_end { ComesToEnd }
    ensures instruction { InstructionLeads }
    ensures front { FrontStands }
    ensures back { BackStands }
{}

/// A machine that meets a program step after step follows it.
pub fn simulation()
    ensures { SimulationFollows }
{}

/// What the templates of code do.
pub fn templates()
    ensures constant { ConstantSets }
    ensures load { LoadSets }
    ensures store { StoreStores }
    ensures call { CallGoes }
    ensures enter { EnterMakesFrame }
    ensures leave { LeaveReturns }
{}

/// What the stubs do.
pub fn stubs()
    ensures start { StartCalls }
    ensures exit { ExitEnds }
    ensures putchar { PutcharWrites }
    ensures getchar { GetcharReads }
{}

/// That the instructions of the templates and the stubs have words.
pub fn encodings()
    ensures constant { ConstantEncodes }
    ensures load { LoadEncodes }
    ensures store { StoreEncodes }
    ensures call { CallEncodes }
    ensures enter { EnterEncodes }
    ensures leave { LeaveEncodes }
    ensures stubs { StubsEncode }
    ensures both { BothEncode }
{}

/// Where the code of steps stands, and what the code of operands does.
pub fn selections()
    ensures steps { StepsStand }
    ensures operand { OperandSets }
    ensures operand_encodes { OperandEncodes }
{}

/// What stores leave of a frame in memory, and what operands find in it.
pub fn frames()
    ensures low_byte { LowByteKept }
    ensures fresh { FreshHeld }
    ensures apart { StoreApart }
    ensures sets { StoreSets }
    ensures operand { OperandHeld }
    ensures reached { DataReached }
{}

/// That the code of a function in an object, with the fields filled that its relocations name, is its code at the address.
pub fn patched_is_direct()
    ensures words { PatchedIsDirect }
    ensures own { OwnNamesPatched }
    ensures length { SameLength }
    ensures names { NamesStand }
    ensures place { PlaceHasName }
{}

/// The rows of steps that move within a function: those without words, jumps, and copies of components.
pub fn plain_rows()
    ensures nop { NopRow }
    ensures label { LabelRow }
    ensures goto { GotoRow }
    ensures copies { CopiesRow }
{}

/// The rows of steps that compute a value.
pub fn value_rows()
    ensures unary { UnaryRow }
    ensures convert { ConvertRow }
    ensures binary { BinaryRow }
{}

/// The rows of steps that test a value and jump.
pub fn test_rows()
    ensures condition { CondRow }
    ensures switch { SwitchRow }
{}

/// The rows of steps that load and store elements of arrays.
pub fn array_rows()
    ensures load { LoadRow }
    ensures store { StoreRow }
{}

/// The rows of the builtin functions.
pub fn builtin_rows()
    ensures putchar { PutcharRow }
    ensures getchar { GetcharRow }
    ensures exit { ExitRow }
{}

/// The rows of calls and returns.
pub fn call_rows()
    ensures call { CallRow }
    ensures give { ReturnRow }
{}

/// The machine law: from the start of its run the machine follows the program, on every input and for ever.
pub fn machine_follows()
    ensures { MachineFollows }
{}

/// What the machine finds in an image that is built of code and arrays.
pub fn images()
    ensures loads { PartsLoad }
    ensures segments { PartsHaveSegments }
    ensures stored { PartsHaveData }
    ensures code { PartsHaveCode }
{}

/// Where the image of a plan has what its program asks for.
pub fn direct_images()
    ensures loads { DirectLoads }
    ensures placed { DirectIsPlaced }
{}

/// How the machine begins with the image of a plan.
pub fn starts()
    ensures { StartIsAtStart }
{}

//! What is proved of managed code, each as the contract of a function without code.
ghost use Rattle.op_mir.specs.Managed.{CodeAgrees, CodeFollows};
ghost use Rattle.op_mir.specs.PlainTests.{PlainByTest};

/// The code of a plain program goes along with the source machine: a step of that is one instruction or more, which show the same at no
/// more than four times its cost; they begin together, and go along for ever. So it does from each state without an exception, also where
/// temporaries were made that have to be ended, and where what ends is walked over or destroyed.
pub fn code_goes_along()
    ensures follows { CodeFollows }
    ensures agrees { CodeAgrees }
{}

/// A typed program is plain where no variable and no result is managed, units name routines that are there, errors end the program, and
/// the items of each routine are plain by a test.
pub fn program_is_plain_by_test()
    ensures { PlainByTest }
{}

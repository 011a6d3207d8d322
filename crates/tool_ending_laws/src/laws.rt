ghost use Rattle.tool_ending_laws.specs.Laws.{AreComplete, DoRight, EachComesExactly, FaultsAreCounted, FiveIsNeeded, FiveIsReadFault, NothingIsWritten, FaultlessIsCalm, StatusesAreExact, SureAreDone, SureHostsAreSure, UsageIsExact};

use c_reading_laws::readings_agree;
use diagram_verdict::one_verdict;
use lustre_agreement::back_ends_agree;
use lustre_reading_laws::texts_are_judged;
use tool_system_driver::shapes_are_one;

/// Where no count of errors rises, what a call does is right for what was asked for.
pub fn endings_do_right()
    ensures { DoRight }
{
    one_verdict();
    readings_agree();
    texts_are_judged();
    back_ends_agree();
    shapes_are_one();
}

/// Whatever the status, commands that only read write nothing, and nor does any where the model is refused, or has a delay that is
/// too long for a file of Lustre.
pub fn nothing_is_written()
    ensures { NothingIsWritten }
{}

/// Status 2 comes exactly where nothing lawful was asked for.
pub fn usage_is_exact()
    ensures { UsageIsExact }
{}

/// Except for errors and out of memory, the status is that to which what is asked for comes.
pub fn statuses_are_exact()
    ensures { StatusesAreExact }
{
    one_verdict();
    readings_agree();
    texts_are_judged();
    shapes_are_one();
}

/// Status 3, 4, 8, 9 and 11 each come exactly where what is asked for comes to it.
pub fn each_status_is_exact()
    ensures { EachComesExactly }
{
    statuses_are_exact();
}

/// Status 5 comes only where the ending that was found is an error of reading.
pub fn five_is_read_fault()
    ensures { FiveIsReadFault }
{}

/// Over a host that is sure of a file just where it is there, status 5 comes only where the file that is missing is needed.
pub fn five_is_needed()
    ensures { FiveIsNeeded }
{
    one_verdict();
    readings_agree();
    texts_are_judged();
}

/// Status 5, 6 and 7 come only with an error of reading, writing or printing that was counted.
pub fn faults_are_counted()
    ensures { FaultsAreCounted }
{}

/// With a status that reports no error, no count of errors rose.
pub fn faultless_is_calm()
    ensures { FaultlessIsCalm }
{}

/// Where no count of errors rises, what can be done is done, unless memory runs out.
pub fn endings_are_complete()
    ensures { AreComplete }
{
    statuses_are_exact();
}

/// The same where that of reading may rise, but the status reports no error of reading.
pub fn sure_are_done()
    ensures { SureAreDone }
{
    statuses_are_exact();
}

/// A host in memory that doesn't fail is sure of the files that are read where what is asked for can be done.
pub fn sure_hosts_are_sure()
    ensures { SureHostsAreSure }
{}

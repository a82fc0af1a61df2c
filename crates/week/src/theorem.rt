ghost use Rattle.week.specs.Retold.{ReportsTellHistory};

use books::Book;
use logs::Log;

// Each call's line in a report is what the call gives after the history of the calls before it: for every book and log.
pub fn reports_tell_history<B: Book, L: Log>()
    ensures { ReportsTellHistory B.Book.meaning L.Log.limit }
{}

pub(crate) const HELP: &str = "lidvauma runs a week file and writes its report.

    lidvauma < FILE     the file on standard input, the report on standard output
    lidvauma help       this text

A week file has one step on each line, its fields parted by tabs:

    W size leader flag     a new group of 1, 3, 5, 7 or 9 boxes; flag 1 allows the fast way
    P book act x y z       propose a job
    R replica job          a box receives the request for a job
    H replica job          the job's client hears the box's answer
    Y                      the first waiting job goes to the log
    N replica job          a box takes the notice of a logged job
    L leader set           a new leader, and the boxes that voted, as ascending digits
    Q job                  where a job stands

The report has one line for each: its number, the letter and the outcome.

    W  answers that confirm, pools that recover, refusals that rule the fast way out
    P  the job's number               R  y yes, n no, d dropped
    H  w waiting, f fast, s slow      Y  the job and its result
    N  the size of the box's pool     L  the epoch and how many jobs were recovered
    Q  the phase, the told result, the place in the log, the given result; - for none

A step that the group refuses gives ! and a number, and the run goes on:

    3 and a field  the record does not fit its book    4  too many jobs
    5  no such box           6  no such job            7  no such message in transit
    8  nothing waits         9  not f + 1 voters       10  no epoch is left
    2  the new leader is not in the group

A line that is wrong gives # with a number and a field (0 for none), and ends the run:

    1  the size is even, 0 or above 9          2  the first leader is not in the group
    11  over 40 bytes, unended, or a byte that is no digit, capital or tab
    12  unknown letter       13  wrong number of fields
    14  a field has not its form               15  the first line is no W, or W comes later
    17  the file has over 60,000 bytes (told for line 0)
";

ghost use Rattle.csv_recording.specs.Back.{ReadsBack};
ghost use Rattle.csv_recording.specs.Recording.{ReadsAsWritten};

/// The column of a gauge in a sheet has the gauge's samples, and then readings that are missing up
/// to the end of the longest recording.
pub fn back()
    ensures { ReadsBack }
{}

/// The recording of a column reads as its head and the samples of the column, and no byte stands
/// behind them.
pub fn read_back()
    ensures { ReadsAsWritten }
{}

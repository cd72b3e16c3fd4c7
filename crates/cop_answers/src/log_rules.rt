//! The rules of a log by their numbers.

/// What the rule of a number says, and what is right. Nothing for a number that is no rule of a log.
pub fn log_rule_words(number: u8) -> &'static str {
    match number {
        90 => {
            "the line has not the words of its log's form, and no CAN FD; the first line tells the form: ( candump -L or candump's columns, date, base or // Vector's .asc, ; PEAK's .trc of 1.0 to 1.3, 2.0 or 2.1; python3 -m can.logconvert IN OUT.log makes one of them of others\nas (1436509052.249713) can0 181#0011223344556677\nin .asc as 0.016132 1 181 Rx d 2 00 11\nin .trc as 1) 1059.9 Rx 0181 2 00 11\n"
        }
        91 => {
            "the stamp is not seconds, a point and six digits in round brackets (in .asc and .trc a number with at most nine digits behind its point), below 2^64 microseconds\nas (1436509052.249713) can0 181#0011223344556677\nin .asc as 0.016132 1 181 Rx d 2 00 11\nin .trc as 1) 1059.9 Rx 0181 2 00 11\n"
        }
        92 => {
            "the identifier has not 3 hexadecimal digits, or 8 for 29 bits (in .asc it has x behind it for 29 bits, in .trc more than 4 digits)\nas (1436509052.249713) can0 181#0011223344556677\nin .asc as 0.016132 1 181 Rx d 2 00 11\nin .trc as 1) 1059.9 Rx 0181 2 00 11\n"
        }
        93 => {
            "the data are not up to 8 pairs of hexadecimal digits, or R for a remote frame; or not as many bytes as the length says\nas (1436509052.249713) can0 181#0011223344556677\nin .asc as 0.016132 1 181 Rx d 2 00 11\nin .trc as 1) 1059.9 Rx 0181 2 00 11\n"
        }
        94 => "the log has no frame of the channel\n",
        95 => "the line is longer than 4096 bytes\n",
        96 => {
            "with --delta each stamp is the distance from the line before, below an hour, and the first is 0; without --delta it is the time\nas (000.000000), as candump -td writes it\n"
        }
        _ => "",
    }
}

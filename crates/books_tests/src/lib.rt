#![tactic(auto)]

#[cfg(test)]
mod tables;

#[cfg(test)]
mod tests {
    use crate::tables::*;
    use books::*;

    #[test]
    fn cards_fit(rt: HostRuntime) {
        fits_as::<Cards>(
            &rt,
            &[
                ([0, 0, 0, 0, 0], None),
                ([0, 1, 255, 999_999, 0], None),
                ([0, 2, 255, 0, 0], None),
                ([1, 0, 0, 0, 0], Some(2)),
                ([0, 3, 0, 0, 0], Some(3)),
                ([0, 0, 256, 0, 0], Some(4)),
                ([0, 1, 0, 1_000_000, 0], Some(5)),
                ([0, 0, 0, 1, 0], Some(5)),
                ([0, 2, 0, 1, 0], Some(5)),
                ([0, 1, 0, 7, 1], Some(6)),
                ([1, 3, 256, 1, 1], Some(2)),
                ([0, 3, 256, 1, 1], Some(3)),
                ([0, 0, 256, 1, 1], Some(4)),
                ([0, 0, 255, 1, 1], Some(5)),
            ],
        );
    }

    #[test]
    fn cards_clash(rt: HostRuntime) {
        clash_as::<Cards>(
            &rt,
            &[
                ([0, 1, 7, 5, 0], [0, 1, 7, 6, 0], true),
                ([0, 0, 7, 0, 0], [0, 0, 7, 0, 0], true),
                ([0, 1, 7, 5, 0], [0, 1, 8, 5, 0], false),
                ([0, 1, 7, 5, 0], [0, 1, 7, 5, 1], false),
                ([0, 0, 256, 0, 0], [0, 0, 256, 0, 0], false),
            ],
        );
    }

    #[test]
    fn cards_run(rt: HostRuntime) {
        runs_as::<Cards>(
            &rt,
            &[
                ([0, 0, 0, 0, 0], 0),
                ([0, 0, 255, 0, 0], 0),
                ([0, 1, 7, 999_999, 0], 0),
                ([0, 1, 7, 5, 0], 999_999),
                ([0, 0, 7, 0, 0], 5),
                ([0, 0, 8, 0, 0], 0),
                // none of these fits, so the slot stays
                ([0, 1, 7, 1_000_000, 0], 0),
                ([0, 1, 7, 6, 1], 0),
                ([1, 2, 7, 0, 0], 0),
                ([0, 2, 7, 0, 0], 5),
                ([0, 2, 7, 0, 0], 0),
            ],
        );
    }

    #[test]
    fn windows_fit(rt: HostRuntime) {
        fits_as::<Windows>(
            &rt,
            &[
                ([0, 0, 0, 0, 1], None),
                ([0, 1, 15, 167, 168], None),
                ([0, 2, 15, 0, 168], None),
                ([1, 0, 0, 0, 1], Some(2)),
                ([0, 3, 0, 0, 1], Some(3)),
                ([0, 0, 16, 0, 1], Some(4)),
                ([0, 0, 0, 168, 169], Some(5)),
                ([0, 0, 0, 0, 0], Some(6)),
                ([0, 0, 0, 8, 8], Some(6)),
                ([0, 0, 0, 167, 169], Some(6)),
                ([1, 3, 16, 168, 0], Some(2)),
                ([0, 3, 16, 168, 0], Some(3)),
                ([0, 2, 16, 168, 0], Some(4)),
                ([0, 2, 15, 168, 0], Some(5)),
            ],
        );
    }

    #[test]
    fn windows_clash(rt: HostRuntime) {
        clash_as::<Windows>(
            &rt,
            &[
                ([0, 0, 3, 8, 10], [0, 0, 3, 8, 10], true),
                ([0, 0, 3, 8, 10], [0, 2, 3, 9, 12], true),
                ([0, 1, 3, 0, 168], [0, 1, 3, 100, 101], true),
                ([0, 0, 3, 8, 10], [0, 0, 3, 10, 12], false),
                ([0, 0, 3, 8, 10], [0, 0, 4, 8, 10], false),
                ([0, 0, 3, 8, 10], [0, 0, 3, 8, 169], false),
            ],
        );
    }

    #[test]
    fn windows_run(rt: HostRuntime) {
        runs_as::<Windows>(
            &rt,
            &[
                ([0, 1, 3, 0, 168], 1),
                ([0, 0, 3, 8, 10], 1),
                // taken now, and a second booking moves nothing
                ([0, 0, 3, 8, 10], 0),
                ([0, 0, 3, 9, 12], 0),
                ([0, 1, 3, 10, 12], 1),
                ([0, 0, 3, 10, 12], 1),
                ([0, 1, 4, 8, 12], 1),
                // none of these fits
                ([0, 2, 3, 8, 169], 0),
                ([0, 3, 3, 8, 12], 0),
                ([0, 2, 3, 9, 11], 2),
                ([0, 2, 3, 0, 168], 2),
                ([0, 2, 3, 0, 168], 0),
                ([0, 0, 3, 0, 168], 1),
            ],
        );
    }

    type Three = Pair<Cards, Pair<Windows, Cards>>;

    #[test]
    fn three_books_fit(rt: HostRuntime) {
        fits_as::<Three>(
            &rt,
            &[
                ([0, 1, 255, 5, 0], None),
                ([1, 0, 15, 0, 168], None),
                ([2, 1, 255, 5, 0], None),
                ([3, 0, 0, 0, 0], Some(2)),
                ([0, 1, 256, 5, 0], Some(4)),
                ([1, 0, 16, 0, 168], Some(4)),
                ([2, 1, 255, 5, 1], Some(6)),
            ],
        );
    }

    #[test]
    fn three_books_clash(rt: HostRuntime) {
        clash_as::<Three>(
            &rt,
            &[
                ([0, 1, 7, 9, 0], [0, 0, 7, 0, 0], true),
                ([1, 0, 7, 8, 9], [1, 2, 7, 0, 9], true),
                ([2, 1, 7, 9, 0], [2, 0, 7, 0, 0], true),
                ([0, 1, 7, 9, 0], [1, 0, 7, 8, 9], false),
                ([0, 1, 7, 9, 0], [2, 1, 7, 9, 0], false),
                ([1, 0, 7, 8, 9], [2, 1, 7, 9, 0], false),
                ([3, 0, 7, 0, 0], [3, 0, 7, 0, 0], false),
            ],
        );
    }

    #[test]
    fn three_books_run(rt: HostRuntime) {
        runs_as::<Three>(
            &rt,
            &[
                ([0, 1, 7, 5, 0], 0),
                ([2, 1, 7, 6, 0], 0),
                ([1, 0, 7, 0, 5], 1),
                ([3, 2, 7, 0, 0], 0),
                ([0, 0, 7, 0, 0], 5),
                ([2, 2, 7, 0, 0], 6),
                ([0, 0, 7, 0, 0], 5),
                ([1, 2, 7, 0, 168], 5),
            ],
        );
    }

    #[test]
    fn shipped_cases(rt: HostRuntime) {
        assert_eq!(rt; clash_cases(), [true, false, false, true, false]);
    }
}

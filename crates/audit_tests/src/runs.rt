//! Runs, each with its report and its journal as `tools/small_world` works them out.

/// A run, and its report and its journal.
#[derive(Clone, Copy, Debug)]
pub struct Told {
    pub run: &'static str,
    pub told: &'static str,
}

/// Three launches, which the walk to the window's end makes.
pub const THREE: Told = Told {
    run: "\
cronrun 1
replicas 1
window 2024-03-31T00:00Z 2024-03-31T01:00Z
grace 0
crontab alice UTC 1
0,20,40 * * * * echo hi
script
end
",
    told: "\
cron report 1
window 2024-03-31T00:00Z 2024-03-31T01:00Z
replicas 1
jobs 1
job alice:1 launched 3 void 0
launch alice:1@20240331T0000Z
launch alice:1@20240331T0020Z
launch alice:1@20240331T0040Z
end
cron journal 1
command end
0 0 campaign
1 0 tick 2024-03-31T00:00Z
2 0 tick 2024-03-31T00:00Z done alice:1@20240331T0000Z launch
3 0 answer
4 0 tick 2024-03-31T00:00Z
5 0 tick 2024-03-31T00:20Z
6 0 tick 2024-03-31T00:20Z done alice:1@20240331T0020Z launch
7 0 answer
8 0 tick 2024-03-31T00:20Z
9 0 tick 2024-03-31T00:40Z
10 0 tick 2024-03-31T00:40Z done alice:1@20240331T0040Z launch
11 0 answer
12 0 tick 2024-03-31T00:40Z
end
",
};

/// A launch whose first call is lost, and whose second one arrives late.
pub const CALLS: Told = Told {
    run: "\
cronrun 1
replicas 1
window 2024-03-31T00:00Z 2024-03-31T01:00Z
grace 5
crontab alice UTC 1
30 0 * * * true
script
campaign 0
fate 0 lost-before
round 2024-03-31T00:30Z 2
fate 0 late
round 2024-03-31T00:31Z 1
stop 0
arrive 0
restart 0
end
",
    told: "\
cron report 1
window 2024-03-31T00:00Z 2024-03-31T01:00Z
replicas 1
jobs 1
job alice:1 launched 1 void 0
launch alice:1@20240331T0030Z
end
cron journal 1
command 1
0 0 campaign
command 2
command 3
1 0 tick 2024-03-31T00:30Z
2 0 tick 2024-03-31T00:30Z lost-before
command 4
command 5
3 0 tick 2024-03-31T00:31Z late
command 6
4 0 stop
command 7
5 - arrive 0
command 8
6 0 restart
command end
7 0 campaign
8 0 tick 2024-03-31T00:31Z
9 0 tick 2024-03-31T00:31Z done alice:1@20240331T0030Z launch
10 0 answer
11 0 tick 2024-03-31T00:31Z
end
",
};

/// A disk stops as a promise is saved, which is lost, and one as the leader's vote is, which is kept.
pub const BREAKS: Told = Told {
    run: "\
cronrun 1
replicas 3
window 2024-03-31T00:00Z 2024-03-31T01:00Z
grace 5
crontab alice UTC 1
30 0 * * * true
script
campaign 0
break 1 3 2
round 2024-03-31T00:30Z 1
restart 1
break 0 2 5
round 2024-03-31T00:30Z 1
restart 0
end
",
    told: "\
cron report 1
window 2024-03-31T00:00Z 2024-03-31T01:00Z
replicas 3
jobs 1
job alice:1 launched 1 void 0
launch alice:1@20240331T0030Z
end
cron journal 1
command 1
0 0 campaign
command 2
command 3
1 0 tick 2024-03-31T00:30Z
2 1 stop lost hear 0
3 2 hear 1
4 2 tick 2024-03-31T00:30Z
command 4
5 1 restart
command 5
command 6
6 0 hear 2
7 0 stop kept tick 2024-03-31T00:30Z
8 1 tick 2024-03-31T00:30Z
9 2 tick 2024-03-31T00:30Z
command 7
10 0 restart
command end
11 0 campaign
12 0 tick 2024-03-31T00:30Z
13 1 hear 3
14 1 tick 2024-03-31T00:30Z
15 2 hear 4
16 2 tick 2024-03-31T00:30Z
17 0 hear 5
18 0 hear 6
19 0 tick 2024-03-31T00:30Z
20 1 tick 2024-03-31T00:30Z
21 2 tick 2024-03-31T00:30Z
22 0 tick 2024-03-31T00:30Z
23 1 hear 7
24 1 tick 2024-03-31T00:30Z
25 2 hear 8
26 2 tick 2024-03-31T00:30Z
27 0 hear 9
28 0 hear 10
29 0 tick 2024-03-31T00:30Z done alice:1@20240331T0030Z launch
30 1 tick 2024-03-31T00:30Z
31 2 tick 2024-03-31T00:30Z
32 0 answer
33 0 tick 2024-03-31T00:30Z
34 1 hear 11
35 1 tick 2024-03-31T00:30Z
36 2 hear 12
37 2 tick 2024-03-31T00:30Z
38 0 tick 2024-03-31T00:30Z
39 1 hear 13
40 1 tick 2024-03-31T00:30Z
41 2 hear 14
42 2 tick 2024-03-31T00:30Z
43 0 hear 15
44 0 hear 16
45 0 tick 2024-03-31T00:30Z
46 1 tick 2024-03-31T00:30Z
47 2 tick 2024-03-31T00:30Z
48 0 tick 2024-03-31T00:30Z
49 1 hear 17
50 1 hear 19
51 1 tick 2024-03-31T00:30Z
52 2 hear 18
53 2 hear 20
54 2 tick 2024-03-31T00:30Z
end
",
};

/// Letters that are lost, come twice, in the opposite order and once more, and a clock that is slow.
pub const LETTERS: Told = Told {
    run: "\
cronrun 1
replicas 2
window 2024-03-31T00:00Z 2024-03-31T01:00Z
grace 5
crontab alice UTC 1
30 0 * * * true
script
cut 0 1
campaign 0
heal
campaign 0
repeat 0 1
reverse 1
skew 1 -3
round 2024-03-31T00:30Z 2
drop 0 1
again 1
settle 2024-03-31T00:30Z
walk 2024-03-31T00:40Z
end
",
    told: "\
cron report 1
window 2024-03-31T00:00Z 2024-03-31T01:00Z
replicas 2
jobs 1
job alice:1 launched 1 void 0
launch alice:1@20240331T0030Z
end
cron journal 1
command 1
command 2
0 0 campaign
command 3
command 4
1 0 campaign
command 5
command 6
command 7
command 8
2 0 tick 2024-03-31T00:30Z
3 1 hear 1
4 1 hear 1
5 1 tick 2024-03-31T00:27Z
6 0 hear 2
7 0 hear 3
8 0 tick 2024-03-31T00:30Z
9 1 tick 2024-03-31T00:27Z
command 9
command 10
command 11
10 0 campaign
11 0 tick 2024-03-31T00:30Z
12 1 hear 5
13 1 tick 2024-03-31T00:30Z
14 0 hear 6
15 0 tick 2024-03-31T00:30Z
16 1 tick 2024-03-31T00:30Z
17 0 tick 2024-03-31T00:30Z
18 1 hear 7
19 1 tick 2024-03-31T00:30Z
20 0 hear 8
21 0 tick 2024-03-31T00:30Z done alice:1@20240331T0030Z launch
22 1 tick 2024-03-31T00:30Z
23 0 answer
24 0 tick 2024-03-31T00:30Z
25 1 hear 9
26 1 tick 2024-03-31T00:30Z
27 0 tick 2024-03-31T00:30Z
28 1 hear 10
29 1 tick 2024-03-31T00:30Z
30 0 hear 11
31 0 tick 2024-03-31T00:30Z
32 1 tick 2024-03-31T00:30Z
33 0 tick 2024-03-31T00:30Z
34 1 hear 12
35 1 hear 13
36 1 tick 2024-03-31T00:30Z
command 12
37 0 campaign
38 0 tick 2024-03-31T00:30Z
39 1 hear 15
40 1 tick 2024-03-31T00:30Z
41 0 hear 16
42 0 tick 2024-03-31T00:30Z
43 1 tick 2024-03-31T00:30Z
command end
44 0 campaign
45 0 tick 2024-03-31T00:30Z
46 1 hear 18
47 1 tick 2024-03-31T00:30Z
48 0 hear 19
49 0 tick 2024-03-31T00:30Z
50 1 tick 2024-03-31T00:30Z
end
",
};

/// Turns that two replicas take by themselves.
pub const FREE: Told = Told {
    run: "\
cronrun 1
replicas 2
window 2024-03-31T00:00Z 2024-03-31T01:00Z
grace 5
crontab alice UTC 1
30 0 * * * true
script
campaign 0
free 2024-03-31T00:30Z 5
end
",
    told: "\
cron report 1
window 2024-03-31T00:00Z 2024-03-31T01:00Z
replicas 2
jobs 1
job alice:1 launched 1 void 0
launch alice:1@20240331T0030Z
end
cron journal 1
command 1
0 0 campaign
command 2
1 1 hear 0
2 1 tick 2024-03-31T00:30Z
3 1 tick 2024-03-31T00:30Z
4 1 tick 2024-03-31T00:30Z
5 1 tick 2024-03-31T00:30Z
6 0 campaign
7 0 hear 1
8 0 tick 2024-03-31T00:30Z
9 0 tick 2024-03-31T00:30Z
10 0 tick 2024-03-31T00:30Z
command end
11 0 campaign
12 0 tick 2024-03-31T00:30Z
13 1 hear 3
14 1 tick 2024-03-31T00:30Z
15 0 hear 4
16 0 tick 2024-03-31T00:30Z
17 1 tick 2024-03-31T00:30Z
18 0 tick 2024-03-31T00:30Z
19 1 hear 5
20 1 tick 2024-03-31T00:30Z
21 0 hear 6
22 0 tick 2024-03-31T00:30Z done alice:1@20240331T0030Z launch
23 1 tick 2024-03-31T00:30Z
24 0 answer
25 0 tick 2024-03-31T00:30Z
26 1 hear 7
27 1 tick 2024-03-31T00:30Z
28 0 tick 2024-03-31T00:30Z
29 1 hear 8
30 1 tick 2024-03-31T00:30Z
31 0 hear 9
32 0 tick 2024-03-31T00:30Z
33 1 tick 2024-03-31T00:30Z
34 0 tick 2024-03-31T00:30Z
35 1 hear 10
36 1 hear 11
37 1 tick 2024-03-31T00:30Z
end
",
};
